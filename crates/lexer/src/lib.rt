// Names numbered, and the cells of tokens and names: stored, and read back. From bril-lib/src/lexer.rs.
#![tactic(auto)]

pub mod names;
pub mod sizes;

ghost use Rattle.std.specs.Prelude.{◌≡◌, ◌+◌, ◌*◌, ◌≤◌, ◌<◌, length};
ghost use Rattle.std.proofs.lemmas.List.Edits.{sets};
ghost use Rattle.pieces.specs.Tokens.{token_cells};
ghost use Rattle.lexer.specs.Sizes.{token_width, tokens_size};
ghost use Rattle.lexer.specs.Steps.{room_for, pushed};
ghost use Rattle.lexer.specs.Decoded.{tokens_of, name_in, integer_in, index_behind, token_at, name_of};

use crate::sizes::{NAME_CELLS, TOKEN_CELLS};
use pieces::{Cursor, Identifier, Kinded, Location, Refusal, Token, kinds};
use utils::{limits, put_cells};

// A name's number, in the table already or new to it.
#[derive(Clone, Copy)]
pub enum Identified {
    Known(Identifier),
    New(Identifier),
}

// One turn of `lexing::lex_all`: a piece whose name has its number.
#[derive(Clone, Copy)]
pub enum Next {
    Skipped(Cursor),
    // The token, the cursor after it, and how many names there are then.
    Token(Token, Cursor, usize),
    End(Token),
}

// How many tokens and names a text has.
#[derive(Clone, Copy)]
pub struct Counts {
    pub tokens: u32,
    pub names: u32,
}

// What `read::read` answers: document 01's number, line and place, and how many tokens and names there are.
#[repr(C)]
#[derive(Clone, Copy)]
pub struct ReadAnswer {
    pub number: u32,
    pub line: u32,
    pub place: u32,
    pub tokens: u32,
    pub names: u32,
}

// A token as its record has it, and the index of the token after it; the end token is followed by itself.
// `name` is a local's, global's or label's number, `integer` an integer's bits; each is 0 of any other token.
#[derive(Clone, Copy)]
pub struct TokenAt {
    pub kind: u32,
    pub name: Identifier,
    pub integer: u32,
    pub line: Location,
    pub place: u32,
    pub next: usize,
}

// Stores a token's four cells, after `count` records.
fn put_token(cells: &mut [u32], count: usize, token: Token)
    requires { (count * token_width + token_width ≤ length cells.old) × (token.place < 4294967296) }
    ensures { cells.new ≡ sets cells.old (count * token_width) (token_cells token) }
{
    let Kinded { kind, carried } = Kinded::from(token.value);
    let part = [kind, carried, token.line.0, token.place as u32];
    put_cells(cells, count * TOKEN_CELLS, &part);
}

// Stores a token behind `count` others, where there is room for it.
#[tactic(auto, unfolding(crate::specs::Steps::room_for, crate::specs::Steps::pushed, utils::specs::Bytes::pick))]
pub fn push_token(cells: &mut [u32], count: usize, token: Token) -> Result<(), Refusal>
    requires { (tokens_size ≤ length cells.old) × (token.place < 4294967296) }
    ensures value { result ≡ room_for count token }
    ensures cells_after { cells.new ≡ pushed cells.old count token }
{
    if count < limits::TOKENS {
        put_token(cells, count, token);
        return Ok(());
    }
    Err(Refusal::TooManyTokens(Cursor {
        place: token.place,
        line: token.line.0,
    }))
}

// The number that a name's token carries in its second cell; 0 where the kind is no name's.
#[tactic(auto, unfolding(crate::specs::Decoded::name_in, crate::specs::Decoded::is_name, utils::specs::Bytes::pick))]
fn name_in(kind: u32, carried: u32) -> Identifier
    ensures { result ≡ name_in kind carried }
{
    match kind {
        kinds::LOCAL..=kinds::LABEL => Identifier(carried),
        _ => Identifier(0),
    }
}

// The bits that an integer's token carries there; 0 where the kind is no integer's.
#[tactic(auto, unfolding(crate::specs::Decoded::integer_in, utils::specs::Bytes::pick))]
fn integer_in(kind: u32, carried: u32) -> u32
    ensures { result ≡ integer_in kind carried }
{
    if kind == kinds::INTEGER { carried } else { 0 }
}

// The index behind a token: the end token is followed by itself.
#[tactic(auto, unfolding(utils::specs::Bytes::pick))]
fn index_behind(kind: u32, at: usize) -> usize
    requires { at < 18446744073709551615 }
    ensures { result ≡ index_behind kind at }
{
    if kind == kinds::END_OF_FILE {
        at
    } else {
        at + 1
    }
}

// The token at an index. Past the slice's last record stands an end token.
pub fn token_at(tokens: &[u32], at: usize) -> TokenAt
    ensures { result ≡ token_at (tokens_of tokens.now) at }
{
    if at < tokens.len() / TOKEN_CELLS {
        let i = at * TOKEN_CELLS;
        let kind = tokens[i];
        let carried = tokens[i + 1];
        return TokenAt {
            kind,
            name: name_in(kind, carried),
            integer: integer_in(kind, carried),
            line: Location(tokens[i + 2]),
            place: tokens[i + 3],
            next: index_behind(kind, at),
        };
    }
    TokenAt {
        kind: kinds::END_OF_FILE,
        name: Identifier(0),
        integer: 0,
        line: Location(0),
        place: 0,
        next: at,
    }
}

// The part of the text that a name's record names.
#[tactic(auto, unfolding(crate::specs::Decoded::name_of, utils::specs::Bytes::pick))]
pub fn get_name<'t, 'n>(text: &'t [u8], names: &'n [u32], id: Identifier) -> &'t [u8]
    ensures { result.now ≡ name_of text.now names.now id.0 }
{
    let at = id.0 as usize * NAME_CELLS;
    let place = utils::cell_at(names, at) as usize;
    let end = place + utils::cell_at(names, at + 1) as usize;
    if end <= text.len() {
        return &text[place..end];
    }
    &text[0..0]
}
