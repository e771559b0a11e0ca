// Display of lexer.rs and ir.rs.
ghost use Rattle.std.specs.Prelude.{◌≡◌, ◌+◌, ◌≤◌, ◌++◌, length};
ghost use Rattle.messages.specs.Messages.{word_of, signed, shown, type_word, quoted, room};

use crate::part::Part;
use parser::types;
use pieces::{Identifier, kinds};

// The words in the order of their kinds.
const WORDS: [&[u8]; 39] = [
    b"",
    b"local_",
    b"global_",
    b"label_",
    b"",
    b"add",
    b"mul",
    b"sub",
    b"div",
    b"mod",
    b"true",
    b"false",
    b"eq",
    b"lt",
    b"gt",
    b"le",
    b"ge",
    b"not",
    b"and",
    b"or",
    b"jmp",
    b"br",
    b"call",
    b"ret",
    b"=",
    b"(",
    b")",
    b"{",
    b"}",
    b":",
    b";",
    b",",
    b"int",
    b"bool",
    b"const",
    b"print",
    b"nop",
    b"id",
    b"END_OF_FILE",
];

// The word of a kind, and nothing for a number that is none.
#[tactic(auto, unfolding(crate::specs::Messages::words))]
fn word_of(kind: u32) -> &'static [u8]
    ensures value { result.now ≡ word_of kind }
    ensures short { length result.now ≤ 11 }
{
    if kind > kinds::END_OF_FILE {
        return b"";
    }
    WORDS[kind as usize]
}

// The bits of the lowest integer.
const LOWEST: u32 = 2147483648;

// An integer from its 32 bits.
#[tactic(auto, unfolding(crate::specs::Messages::signed, utils::specs::Bytes::pick))]
fn put_signed(part: &mut Part, bits: u32)
    requires { length part.old + 11 ≤ room }
    ensures value { part.new ≡ part.old ++ signed bits }
    ensures short { length part.new ≤ length part.old + 11 }
{
    if bits < LOWEST {
        part.put_decimal(bits);
    } else {
        part.put(b"-");
        part.put_decimal(u32::MAX - bits + 1);
    }
}

#[tactic(auto, unfolding(crate::specs::Messages::shown, utils::specs::Bytes::pick))]
fn put_shown(part: &mut Part, kind: u32, name: Identifier, integer: u32)
    requires { length part.old + 21 ≤ room }
    ensures value { part.new ≡ part.old ++ shown kind name integer }
    ensures short { length part.new ≤ length part.old + 21 }
{
    if kind == kinds::INTEGER {
        put_signed(part, integer);
        return;
    }
    part.put(word_of(kind));
    if kind < kinds::INTEGER {
        part.put_decimal(name.0);
    }
}

#[tactic(auto, unfolding(crate::specs::Messages::quoted))]
pub(crate) fn put_quoted_shown(part: &mut Part, kind: u32, name: Identifier, integer: u32)
    requires { length part.old + 23 ≤ room }
    ensures value { part.new ≡ part.old ++ quoted (shown kind name integer) }
    ensures short { length part.new ≤ length part.old + 23 }
{
    part.put(b"'");
    put_shown(part, kind, name, integer);
    part.put(b"'");
}

// Display for Type.
#[tactic(auto, unfolding(crate::specs::Messages::type_word, utils::specs::Bytes::pick))]
pub(crate) fn type_word(cell: u32) -> &'static [u8]
    ensures value { result.now ≡ type_word cell }
    ensures short { length result.now ≤ 11 }
{
    match cell {
        types::PLACEHOLDER => b"placeholder",
        types::INT => b"int",
        types::BOOL => b"bool",
        types::VOID => b"void",
        _ => b"fn",
    }
}
