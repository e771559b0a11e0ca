// ITEM: Token::error of lexer.rs, and the names that ir.rs and parser.rs report with.
ghost use Rattle.std.specs.Prelude.{◌≡◌, ◌+◌, ◌≤◌, ◌++◌, length};
ghost use Rattle.messages.specs.Messages.{at_token, at_name, item_of, room, ShortNames};

use crate::part::Part;
use crate::words;
use lexer::{TokenAt, get_name};
use parser::Refusal;
use pieces::kinds;
use utils::numbers;

#[tactic(auto, unfolding(crate::specs::Messages::at_token, utils::specs::Bytes::pick))]
fn put_at_token(part: &mut Part, t: TokenAt)
    requires { length part.old + 26 ≤ room }
    ensures value { part.new ≡ part.old ++ at_token t.kind t.name t.integer }
    ensures short { length part.new ≤ length part.old + 26 }
{
    if t.kind == kinds::END_OF_FILE {
        part.put(b"at end of file");
    } else {
        part.put(b"at ");
        words::put_quoted_shown(part, t.kind, t.name, t.integer);
    }
}

fn put_at_name(part: &mut Part, name: &[u8])
    requires { length part.old + length name.now + 5 ≤ room }
    ensures value { part.new ≡ part.old ++ at_name name.now }
    ensures long { length part.new ≡ length part.old + length name.now + 5 }
{
    part.put(b"at ");
    part.put_quoted(name);
}

#[tactic(auto, unfolding(crate::specs::Messages::item_of, utils::specs::Bytes::pick))]
pub(crate) fn put_item(part: &mut Part, text: &[u8], names: &[u32], t: TokenAt, e: Refusal)
    requires { (length part.old + 69 ≤ room) × ShortNames text.now names.now }
    ensures value { part.new
        ≡ part.old ++ item_of text.now names.now t.kind t.name t.integer e.number e.name }
    ensures short { length part.new ≤ length part.old + 69 }
{
    match e.number {
        0..numbers::DUPLICATE_LABEL => put_at_token(part, t),
        numbers::DUPLICATE_LABEL => put_at_name(part, get_name(text, names, t.name)),
        numbers::MISSING_TARGET => {}
        0..numbers::OTHER_TYPE => put_at_name(part, get_name(text, names, e.name)),
        0..numbers::EMPTY_BLOCK => put_at_token(part, t),
        _ => {}
    }
}
