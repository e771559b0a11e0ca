// Text to tokens: one turn of the reader after the other, from bril-lib/src/lexer.rs.
#![tactic(auto)]

ghost use Rattle.std.specs.Prelude.{◌≡◌, ◌+◌, ◌*◌, ◌≤◌, ◌<◌, length};
ghost use Rattle.std.proofs.lemmas.List.Edits.{sets};
ghost use Rattle.pieces.specs.Pieces.{piece_at};
ghost use Rattle.utils.specs.Limits.{most_bytes};
ghost use Rattle.lexer.specs.Sizes.{tokens_size, names_size};
ghost use Rattle.lexer.specs.Numbered.{identified, named, numbered};
ghost use Rattle.lexer.specs.Steps.{first_names, Table, new_cells, Prints, next_name, next_of, added_by};
ghost use Rattle.lexer.specs.Read.{lexed_from, result_of, Held};

use lexer::{Counts, Identified, Next, names, push_token};
use pieces::{Cursor, Identifier, Lexed, Location, Name, Refusal, Token, TokenValue, scan};
use utils::limits;

// The token of a name that has its number.
fn named(name: Name, i: Identifier) -> Token
    ensures { result ≡ named name i }
{
    Token {
        value: name.kind.value(i),
        line: name.line,
        place: name.place,
    }
}

// A name with its number in the table.
#[tactic(auto, unfolding(lexer::specs::Numbered::identified))]
fn number_name(
    text: &[u8],
    names: &mut [u32],
    prints: &[u32],
    count: usize,
    name: Name,
    next: Cursor,
) -> Result<Next, Refusal>
    requires { Table text.now names.old count × Prints text.now names.old count prints.now
        × (name.place + name.len ≤ length text.now) }
    ensures value { result ≡ next_name count name next
        (identified text.now (first_names count names.old) name) }
    ensures names_after { names.new ≡ sets names.old (count * 2)
        (new_cells name (identified text.now (first_names count names.old) name)) }
{
    let at = Cursor {
        place: name.place,
        line: name.line.0,
    };
    match names::get_identifier(text, names, prints, count, at, name.len)? {
        Identified::Known(i) => Ok(Next::Token(named(name, i), next, count)),
        Identified::New(i) => Ok(Next::Token(named(name, i), next, count + 1)),
    }
}

// A piece, with its name numbered.
#[tactic(auto, unfolding(lexer::specs::Steps::next_of, lexer::specs::Steps::added_by))]
fn next_token(
    text: &[u8],
    names: &mut [u32],
    prints: &[u32],
    count: usize,
    at: Cursor,
) -> Result<Next, Refusal>
    requires { Table text.now names.old count × Prints text.now names.old count prints.now
        × (at.place ≤ length text.now) × (at.line < 4294967295) }
    ensures value { result ≡ next_of text.now (first_names count names.old) count
        (piece_at text.now at.place at.line) }
    ensures names_after { names.new ≡ sets names.old (count * 2)
        (added_by text.now (first_names count names.old)
        (piece_at text.now at.place at.line)) }
{
    match reader::lex_at(text, at.place, at.line)? {
        Lexed::Skipped(next) => Ok(Next::Skipped(next)),
        Lexed::Token(token, next) => Ok(Next::Token(token, next, count)),
        Lexed::Name(name, next) => number_name(text, names, prints, count, name, next),
        Lexed::End(end) => Ok(Next::End(Token {
            value: TokenValue::EndOfFile,
            line: Location(end.line),
            place: end.place,
        })),
    }
}

// The cells of tokens and names, stored over what the slices hold.
fn lex_all(text: &[u8], line: u32, tokens: &mut [u32], names: &mut [u32]) -> Result<Counts, Refusal>
    requires { (length text.now ≤ most_bytes) × (line ≤ 2147483648)
        × (tokens_size ≤ length tokens.old) × (names_size ≤ length names.old) }
    ensures value { result ≡ result_of (numbered text.now line) }
    ensures held { Held (numbered text.now line)
        tokens.old names.old tokens.new names.new }
{
    let mut prints = [0u32; limits::NAMES];
    let mut count: usize = 0;
    let mut known: usize = 0;
    let mut at = Cursor { place: 0, line };
    loop {
        match next_token(text, names, &prints, known, at)? {
            Next::Skipped(next) => at = next,
            Next::Token(token, next, then) => {
                push_token(tokens, count, token)?;
                names::keep_print(text, names, &mut prints, known, then);
                count += 1;
                known = then;
                at = next;
            }
            Next::End(token) => {
                push_token(tokens, count, token)?;
                return Ok(Counts {
                    tokens: count as u32 + 1,
                    names: known as u32,
                });
            }
        }
    }
}

// 31, then 1, then from left to right.
#[tactic(auto, unfolding(lexer::specs::Read::lexed_from, utils::specs::Bytes::pick))]
pub fn lex_text(
    text: &[u8],
    line: u32,
    tokens: &mut [u32],
    names: &mut [u32],
) -> Result<Counts, Refusal>
    requires { (line ≤ 2147483648) × (tokens_size ≤ length tokens.old) × (names_size ≤ length names.old) }
    ensures value { result ≡ result_of (lexed_from line text.now) }
    ensures held { Held (lexed_from line text.now)
        tokens.old names.old tokens.new names.new }
{
    if limits::BYTES < text.len() {
        return Err(Refusal::TooManyBytes);
    }
    if !scan::is_ascii(text) {
        return Err(Refusal::NotAscii(line));
    }
    lex_all(text, line, tokens, names)
}
