// One piece of a text at a place: what Cursor::lex answers, by the byte that stands there.
ghost use Rattle.std.specs.Prelude.{◌≡◌, ◌+◌, ◌-◌, ◌≤◌, ◌<◌, length};
ghost use Rattle.pieces.specs.Pieces.{cursor, token, name, slash_at, digit_at, minus_at, name_at, sigil_at, word_at, symbol_at};
ghost use Rattle.pieces.specs.Pieces.{token_from};

use crate::{Cursor, Lexed, Location, Name, NameKind, Refusal, Token, TokenValue, scan, tokens};

// At a slash: a comment, or a byte that begins nothing.
#[tactic(auto, unfolding(crate::specs::Pieces::slash_at, utils::specs::Bytes::pick))]
pub(crate) fn lex_slash(text: &[u8], at: Cursor) -> Result<Lexed, Refusal>
    requires { at.place < length text.now }
    ensures { result ≡ slash_at text.now at.place at.line }
{
    let b = scan::peek(text, at.place + 1);
    if b == b'/' {
        let place = scan::line_end(text, at.place + 2);
        return Ok(Lexed::Skipped(Cursor { place, ..at }));
    }
    if b == b'*' {
        return match scan::comment_end(text, at.place + 2) {
            Some(place) => Ok(Lexed::Skipped(Cursor { place, ..at })),
            None => Err(Refusal::CommentNotClosed(at)),
        };
    }
    Err(Refusal::UnexpectedByte(b'/', at))
}

// A token from its first byte to its end.
fn token_to(value: TokenValue, at: Cursor, end: usize) -> Lexed
    ensures { result ≡ Lexed.Token (token value at.line at.place) (cursor end at.line) }
{
    let token = Token {
        value,
        line: Location(at.line),
        place: at.place,
    };
    Lexed::Token(token, Cursor { place: end, ..at })
}

// At a digit. The Rust drops what its parse::<i32>() refuses, and goes on; here it is refused.
fn lex_digit(text: &[u8], at: Cursor) -> Result<Lexed, Refusal>
    ensures { result ≡ digit_at text.now at.place at.line }
{
    let n = scan::lex_number(text, at.place);
    if n.value <= 2147483647 {
        return Ok(token_to(TokenValue::Integer(n.value as u32), at, n.end));
    }
    Err(Refusal::NumberOutOfRange(at))
}

// At a minus.
fn lex_minus(text: &[u8], at: Cursor) -> Result<Lexed, Refusal>
    requires { at.place < length text.now }
    ensures { result ≡ minus_at text.now at.place at.line }
{
    if !scan::is_digit(scan::peek(text, at.place + 1)) {
        return Err(Refusal::NumberExpected(at));
    }
    let n = scan::lex_number(text, at.place + 1);
    if n.value <= 2147483648 {
        let bits = (n.value as u32).wrapping_neg();
        return Ok(token_to(TokenValue::Integer(bits), at, n.end));
    }
    Err(Refusal::NumberExpected(at))
}

// A name from its first byte to its end.
fn name_to(kind: NameKind, at: Cursor, end: usize) -> Lexed
    requires { at.place ≤ end }
    ensures { result ≡ Lexed.Name (name kind at.place (end - at.place) at.line) (cursor end at.line) }
{
    let name = Name {
        kind,
        place: at.place,
        len: end - at.place,
        line: Location(at.line),
    };
    Lexed::Name(name, Cursor { place: end, ..at })
}

// From a name's first byte, a sigil or a letter, to its end.
#[tactic(auto, unfolding(crate::specs::Pieces::name_at))]
fn lex_name(kind: NameKind, text: &[u8], at: Cursor) -> Lexed
    requires { at.place < length text.now }
    ensures { Ok result ≡ name_at kind text.now at.place at.line }
{
    let end = scan::name_end(text, at.place + 1);
    name_to(kind, at, end)
}

// At `@` or `.`, which a letter must follow.
#[tactic(auto, unfolding(crate::specs::Pieces::sigil_at, utils::specs::Bytes::pick))]
fn lex_sigil(kind: NameKind, text: &[u8], at: Cursor) -> Result<Lexed, Refusal>
    requires { at.place < length text.now }
    ensures { result ≡ sigil_at kind text.now at.place at.line }
{
    if scan::is_letter(scan::peek(text, at.place + 1)) {
        return Ok(lex_name(kind, text, at));
    }
    Err(Refusal::UnexpectedByte(text[at.place], at))
}

// At a letter: a word of the language, or a local.
fn lex_word(text: &[u8], at: Cursor) -> Result<Lexed, Refusal>
    requires { at.place < length text.now }
    ensures { result ≡ word_at text.now at.place at.line }
{
    let end = scan::name_end(text, at.place + 1);
    match tokens::get_keyword(&text[at.place..end]) {
        Some(value) => Ok(token_to(value, at, end)),
        None => Ok(name_to(NameKind::Local, at, end)),
    }
}

// A token of one byte, or a byte that begins nothing.
#[tactic(auto, unfolding(crate::specs::Pieces::symbol_at, crate::specs::Pieces::then_value))]
fn lex_symbol(text: &[u8], at: Cursor) -> Result<Lexed, Refusal>
    requires { at.place < length text.now }
    ensures { result ≡ symbol_at text.now at.place at.line }
{
    let b = text[at.place];
    match tokens::from_char(b) {
        Some(value) => Ok(token_to(value, at, at.place + 1)),
        None => Err(Refusal::UnexpectedByte(b, at)),
    }
}

// At a byte that is neither blank nor a comment's first.
#[tactic(auto, unfolding(crate::specs::Pieces::token_from, utils::specs::Bytes::pick))]
pub(crate) fn lex_token(text: &[u8], at: Cursor) -> Result<Lexed, Refusal>
    requires { at.place < length text.now }
    ensures { result ≡ token_from text.now at.place at.line }
{
    match text[at.place] {
        b'-' => lex_minus(text, at),
        b'@' => lex_sigil(NameKind::Global, text, at),
        b'.' => lex_sigil(NameKind::Label, text, at),
        b if scan::is_digit(b) => lex_digit(text, at),
        b if scan::is_letter(b) => lex_word(text, at),
        _ => lex_symbol(text, at),
    }
}
