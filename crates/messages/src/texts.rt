// TEXT: what each number says.
ghost use Rattle.std.specs.Prelude.{◌≡◌, ◌+◌, ◌≤◌, ◌++◌, length};
ghost use Rattle.messages.specs.Messages.{expected, missing, unexpected, other_type, other_count, fixed, text_of};
ghost use Rattle.messages.specs.Messages.{room, ShortNames};

use crate::part::Part;
use crate::words::{put_quoted_shown, type_word};
use parser::Refusal;
use pieces::Identifier;
use utils::numbers;

fn put_expected(part: &mut Part, kind: u32)
    requires { length part.old + 33 ≤ room }
    ensures value { part.new ≡ part.old ++ expected kind }
    ensures short { length part.new ≤ length part.old + 33 }
{
    put_quoted_shown(part, kind, Identifier(0), 0);
    part.put(b" expected.");
}

fn put_missing(part: &mut Part, name: &[u8])
    requires { length part.old + length name.now + 27 ≤ room }
    ensures value { part.new ≡ part.old ++ missing name.now }
    ensures long { length part.new ≡ length part.old + length name.now + 27 }
{
    part.put(b"Branch target ");
    part.put_quoted(name);
    part.put(b" is missing");
}

fn put_unexpected(part: &mut Part, found: u32, wanted: u32)
    requires { length part.old + 54 ≤ room }
    ensures value { part.new ≡ part.old ++ unexpected found wanted }
    ensures short { length part.new ≤ length part.old + 54 }
{
    part.put(b"Unexpected type ");
    part.put_quoted(type_word(found));
    part.put(b". Expected ");
    part.put_quoted(type_word(wanted));
    part.put(b".");
}

fn put_other_type(part: &mut Part, wanted: u32, found: u32)
    requires { length part.old + 48 ≤ room }
    ensures value { part.new ≡ part.old ++ other_type wanted found }
    ensures short { length part.new ≤ length part.old + 48 }
{
    part.put_quoted(type_word(wanted));
    part.put(b" type expected; ");
    part.put_quoted(type_word(found));
    part.put(b" found");
}

fn put_other_count(part: &mut Part, wanted: u32, found: u32)
    requires { length part.old + 45 ≤ room }
    ensures value { part.new ≡ part.old ++ other_count wanted found }
    ensures short { length part.new ≤ length part.old + 45 }
{
    part.put_decimal(wanted);
    part.put(b" arguments expected, got ");
    part.put_decimal(found);
}

// Of a number that says the same of every text, and nothing of any other. The numbers are those of the C interface.
#[tactic(auto, unfolding(crate::specs::Messages::fixed, utils::specs::Bytes::pick))]
pub(crate) fn fixed(number: u32) -> &'static [u8]
    ensures value { result.now ≡ fixed number }
    ensures short { length result.now ≤ 49 }
{
    match number {
        numbers::NO_LOCAL => b"Local identifier expected.",
        numbers::NO_GLOBAL => b"Global identifier expected.",
        numbers::NO_LABEL => b"Label identifier expected.",
        numbers::NO_TYPE => b"Type expected.",
        numbers::NO_CONSTANT => b"Integer or boolean constant expected.",
        numbers::UNEXPECTED_TOKEN => b"Unexpected token.",
        numbers::NO_LABEL_FIRST => b"Basic block must start with a label.",
        numbers::DUPLICATE_LABEL => b"Duplicate label found.",
        numbers::UNDEFINED => b"Undefined identifier.",
        numbers::VOID_VALUE => b"Void functions cannot return a value.",
        numbers::NO_VALUE => b"Non-void functions must return a value.",
        numbers::NO_TERMINATOR => b"Block terminator expected to be jump, br, or ret.",
        numbers::EMPTY_BLOCK => b"empty block.",
        numbers::TOO_MANY_FUNCTIONS => b"too many functions.",
        numbers::TOO_MANY_FORMALS => b"too many formals.",
        numbers::TOO_MANY_ARGUMENTS => b"too many arguments.",
        numbers::TOO_MANY_LABELS => b"too many labels.",
        numbers::NOT_ONE_FUNCTION => b"not one function.",
        numbers::HEADER_CHANGED => b"header changed.",
        numbers::BAD_TABLE => b"bad header table.",
        _ => b"",
    }
}

#[tactic(auto, unfolding(crate::specs::Messages::text_of, utils::specs::Bytes::pick))]
pub(crate) fn put_text(part: &mut Part, text: &[u8], names: &[u32], e: Refusal)
    requires { (length part.old + 91 ≤ room) × ShortNames text.now names.now }
    ensures value { part.new
        ≡ part.old ++ text_of text.now names.now e.number e.wanted e.found e.name }
    ensures short { length part.new ≤ length part.old + 91 }
{
    match e.number {
        numbers::TOKEN_EXPECTED => put_expected(part, e.wanted),
        numbers::MISSING_TARGET => put_missing(part, lexer::get_name(text, names, e.name)),
        numbers::UNEXPECTED_TYPE => put_unexpected(part, e.found, e.wanted),
        numbers::OTHER_TYPE => put_other_type(part, e.wanted, e.found),
        numbers::OTHER_COUNT => put_other_count(part, e.wanted, e.found),
        _ => part.put(fixed(e.number)),
    }
}
