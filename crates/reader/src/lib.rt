// The thin reader: Lexer<'src> of bril-lib/src/lexer.rs, which keeps the source slice beside its position.
#![tactic(auto)]

ghost use Rattle.std.specs.Prelude.{◌≡◌, ◌<◌, ◌-◌};
ghost use Rattle.pieces.specs.Pieces.{piece_at};
ghost use Rattle.reader.specs.Reader.{lexer, behind, step_of, left_of};

use pieces::{Cursor, Lexed, Refusal};

#[derive(Clone, Copy)]
pub struct Lexer<'src> {
    pub source: &'src [u8],
    pub place: usize,
    pub line: u32,
}

// A piece, and the reader behind it.
#[derive(Clone, Copy)]
pub struct Step<'src> {
    pub reader: Lexer<'src>,
    pub piece: Result<Lexed, Refusal>,
}

// Where the reader stands behind a piece. At the end and at a refusal it stays where it is.
#[tactic(auto, unfolding(crate::specs::Reader::behind))]
fn behind(at: Cursor, piece: Result<Lexed, Refusal>) -> Cursor
    ensures { result ≡ behind at piece }
{
    match piece {
        Ok(Lexed::Skipped(next)) => next,
        Ok(Lexed::Name(_, next)) => next,
        Ok(Lexed::Token(_, next)) => next,
        Ok(Lexed::End(end)) => end,
        Err(_) => at,
    }
}

impl<'src> Lexer<'src> {
    // A reader of a text, at a place of it and a line.
    pub fn new(source: &'src [u8], place: usize, line: u32) -> Lexer<'src>
        ensures { result ≡ lexer source.entry place line }
    {
        Lexer {
            source,
            place,
            line,
        }
    }

    // The next piece, and the reader behind it.
    #[tactic(auto, unfolding(crate::specs::Reader::step_of))]
    pub fn next(self) -> Step<'src>
        requires { self.line < 4294967295 }
        ensures { result ≡ step_of self.entry }
    {
        let here = Cursor {
            place: self.place,
            line: self.line,
        };
        let piece = here.lex(self.source);
        let next = behind(here, piece);
        let reader = Lexer::new(self.source, next.place, next.line);
        Step { reader, piece }
    }

    // How many bytes are left; where none is, the Rust's is_at_end holds.
    pub fn left(self) -> usize
        ensures { result ≡ left_of self.entry.source.now self.entry.place }
    {
        self.source.len().saturating_sub(self.place)
    }
}

// The piece at a place of a plain slice, by the reader: who calls this needs no walk.
#[tactic(auto, unfolding(crate::specs::Reader::step_of))]
pub fn lex_at(text: &[u8], place: usize, line: u32) -> Result<Lexed, Refusal>
    requires { line < 4294967295 }
    ensures { result ≡ piece_at text.now place line }
{
    Lexer::new(text, place, line).next().piece
}
