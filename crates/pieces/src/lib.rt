// One piece of a text after the other, from bril-lib/src/lexer.rs.
#![tactic(auto)]

pub mod kinds;
mod lex;
pub mod scan;
pub mod tokens;

ghost use Rattle.std.specs.Prelude.{◌≡◌, ◌<◌};
ghost use Rattle.pieces.specs.Pieces.{piece_at};

// A name's number in the table of names.
#[derive(Clone, Copy)]
pub struct Identifier(pub u32);

// A line.
#[derive(Clone, Copy)]
pub struct Location(pub u32);

#[derive(Clone, Copy)]
pub enum TokenValue {
    Local(Identifier),
    Global(Identifier),
    Label(Identifier),
    Integer(u32),
    Add,
    Mul,
    Sub,
    Div,
    Mod,
    True,
    False,
    Equal,
    LessThan,
    GreaterThan,
    LessThanOrEq,
    GreaterThanOrEq,
    Not,
    And,
    Or,
    Jump,
    Branch,
    Call,
    Return,
    Define,
    LeftParen,
    RightParen,
    LeftBrace,
    RightBrace,
    Colon,
    Semicolon,
    Comma,
    Int,
    Bool,
    Const,
    Print,
    Nop,
    Identity,
    EndOfFile,
}

// A value's kind, and what it carries: a name's number, an integer's bits, or 0.
#[derive(Clone, Copy)]
pub struct Kinded {
    pub kind: u32,
    pub carried: u32,
}

#[derive(Clone, Copy)]
pub struct Token {
    pub value: TokenValue,
    pub line: Location,
    pub place: usize,
}

// The lexer's position: the next byte, and the line counted so far, which no newline in a comment adds to.
#[derive(Clone, Copy)]
pub struct Cursor {
    pub place: usize,
    pub line: u32,
}

// What a name is of.
#[derive(Clone, Copy)]
pub enum NameKind {
    Local,
    Global,
    Label,
}

// A name that has no number yet.
#[derive(Clone, Copy)]
pub struct Name {
    pub kind: NameKind,
    pub place: usize,
    pub len: usize,
    pub line: Location,
}

// Why a text is refused. `facts_of` gives document 01's number, line, place and text for each.
#[derive(Clone, Copy)]
pub enum Refusal {
    // 1. The line is the text's first.
    NotAscii(u32),
    // 2, at the comment's first byte.
    CommentNotClosed(Cursor),
    // 3, with the byte.
    UnexpectedByte(u8, Cursor),
    // 4, at the minus.
    NumberExpected(Cursor),
    // 43, at the number's first digit.
    NumberOutOfRange(Cursor),
    // 31
    TooManyBytes,
    // 32, at the token one too many.
    TooManyTokens(Cursor),
    // 33 and 34, at the name's first byte.
    TooManyNames(Cursor),
    NameTooLong(Cursor),
}

// What stands at a cursor, and the cursor after it.
#[derive(Clone, Copy)]
pub enum Lexed {
    // A blank or a comment.
    Skipped(Cursor),
    Name(Name, Cursor),
    Token(Token, Cursor),
    End(Cursor),
}

// A number's value, which counts no higher than 2147483649, and the place after it.
#[derive(Clone, Copy)]
pub struct Number {
    pub value: u64,
    pub end: usize,
}

impl Cursor {
    // One piece of the text, and the cursor after it.
    #[tactic(auto, unfolding(crate::specs::Pieces::piece_at, utils::specs::Bytes::pick))]
    pub fn lex(self, text: &[u8]) -> Result<Lexed, Refusal>
        requires { self.line < 4294967295 }
        ensures { result ≡ piece_at text.now self.place self.line }
    {
        if text.len() <= self.place {
            return Ok(Lexed::End(self));
        }
        let b = text[self.place];
        if b == b'\n' {
            return Ok(Lexed::Skipped(Cursor {
                place: self.place + 1,
                line: self.line + 1,
            }));
        }
        if scan::is_blank(b) {
            let place = self.place + 1;
            return Ok(Lexed::Skipped(Cursor { place, ..self }));
        }
        if b == b'#' {
            let place = scan::line_end(text, self.place + 1);
            return Ok(Lexed::Skipped(Cursor { place, ..self }));
        }
        if b == b'/' {
            return lex::lex_slash(text, self);
        }
        lex::lex_token(text, self)
    }
}
