// Token values and their kinds, the words and the tokens of one byte.
ghost use Rattle.std.specs.Prelude.{◌≡◌, [], ◌∷◌, ◌+◌, ◌≤◌, length};
ghost use Rattle.std.proofs.Math.Seq.{slice};
ghost use Rattle.utils.specs.Bytes.{same_bytes};
ghost use Rattle.pieces.specs.Tokens.{kinded_of, name_kind, value_of};
ghost use Rattle.pieces.specs.Tokens.{word_in, keyword, symbol};

use crate::{Identifier, Kinded, NameKind, TokenValue, kinds};

// A value of this kind that carries this.
fn kinded(kind: u32, carried: u32) -> Kinded
    ensures { result ≡ record { kind = kind; carried = carried } }
{
    Kinded { kind, carried }
}

impl From<TokenValue> for Kinded {
    ghost from_gives = { λ v r. r ≡ kinded_of v };

    fn from(value: TokenValue) -> Kinded {
        match value {
            TokenValue::Local(i) => kinded(kinds::LOCAL, i.0),
            TokenValue::Global(i) => kinded(kinds::GLOBAL, i.0),
            TokenValue::Label(i) => kinded(kinds::LABEL, i.0),
            TokenValue::Integer(n) => kinded(kinds::INTEGER, n),
            TokenValue::Add => kinded(kinds::ADD, 0),
            TokenValue::Mul => kinded(kinds::MUL, 0),
            TokenValue::Sub => kinded(kinds::SUB, 0),
            TokenValue::Div => kinded(kinds::DIV, 0),
            TokenValue::Mod => kinded(kinds::MOD, 0),
            TokenValue::True => kinded(kinds::TRUE, 0),
            TokenValue::False => kinded(kinds::FALSE, 0),
            TokenValue::Equal => kinded(kinds::EQ, 0),
            TokenValue::LessThan => kinded(kinds::LT, 0),
            TokenValue::GreaterThan => kinded(kinds::GT, 0),
            TokenValue::LessThanOrEq => kinded(kinds::LE, 0),
            TokenValue::GreaterThanOrEq => kinded(kinds::GE, 0),
            TokenValue::Not => kinded(kinds::NOT, 0),
            TokenValue::And => kinded(kinds::AND, 0),
            TokenValue::Or => kinded(kinds::OR, 0),
            TokenValue::Jump => kinded(kinds::JMP, 0),
            TokenValue::Branch => kinded(kinds::BR, 0),
            TokenValue::Call => kinded(kinds::CALL, 0),
            TokenValue::Return => kinded(kinds::RET, 0),
            TokenValue::Define => kinded(kinds::DEFINE, 0),
            TokenValue::LeftParen => kinded(kinds::LEFT_PAREN, 0),
            TokenValue::RightParen => kinded(kinds::RIGHT_PAREN, 0),
            TokenValue::LeftBrace => kinded(kinds::LEFT_BRACE, 0),
            TokenValue::RightBrace => kinded(kinds::RIGHT_BRACE, 0),
            TokenValue::Colon => kinded(kinds::COLON, 0),
            TokenValue::Semicolon => kinded(kinds::SEMICOLON, 0),
            TokenValue::Comma => kinded(kinds::COMMA, 0),
            TokenValue::Int => kinded(kinds::INT, 0),
            TokenValue::Bool => kinded(kinds::BOOL, 0),
            TokenValue::Const => kinded(kinds::CONST, 0),
            TokenValue::Print => kinded(kinds::PRINT, 0),
            TokenValue::Nop => kinded(kinds::NOP, 0),
            TokenValue::Identity => kinded(kinds::ID, 0),
            TokenValue::EndOfFile => kinded(kinds::END_OF_FILE, 0),
        }
    }
}

// What is no kind is read as the end.
impl From<Kinded> for TokenValue {
    ghost from_gives = { λ k r. r ≡ value_of k.kind k.carried };

    #[tactic(auto, unfolding(crate::specs::Tokens::value_of, utils::specs::Bytes::pick))]
    fn from(of: Kinded) -> TokenValue {
        match of.kind {
            kinds::LOCAL => TokenValue::Local(Identifier(of.carried)),
            kinds::GLOBAL => TokenValue::Global(Identifier(of.carried)),
            kinds::LABEL => TokenValue::Label(Identifier(of.carried)),
            kinds::INTEGER => TokenValue::Integer(of.carried),
            kinds::ADD => TokenValue::Add,
            kinds::MUL => TokenValue::Mul,
            kinds::SUB => TokenValue::Sub,
            kinds::DIV => TokenValue::Div,
            kinds::MOD => TokenValue::Mod,
            kinds::TRUE => TokenValue::True,
            kinds::FALSE => TokenValue::False,
            kinds::EQ => TokenValue::Equal,
            kinds::LT => TokenValue::LessThan,
            kinds::GT => TokenValue::GreaterThan,
            kinds::LE => TokenValue::LessThanOrEq,
            kinds::GE => TokenValue::GreaterThanOrEq,
            kinds::NOT => TokenValue::Not,
            kinds::AND => TokenValue::And,
            kinds::OR => TokenValue::Or,
            kinds::JMP => TokenValue::Jump,
            kinds::BR => TokenValue::Branch,
            kinds::CALL => TokenValue::Call,
            kinds::RET => TokenValue::Return,
            kinds::DEFINE => TokenValue::Define,
            kinds::LEFT_PAREN => TokenValue::LeftParen,
            kinds::RIGHT_PAREN => TokenValue::RightParen,
            kinds::LEFT_BRACE => TokenValue::LeftBrace,
            kinds::RIGHT_BRACE => TokenValue::RightBrace,
            kinds::COLON => TokenValue::Colon,
            kinds::SEMICOLON => TokenValue::Semicolon,
            kinds::COMMA => TokenValue::Comma,
            kinds::INT => TokenValue::Int,
            kinds::BOOL => TokenValue::Bool,
            kinds::CONST => TokenValue::Const,
            kinds::PRINT => TokenValue::Print,
            kinds::NOP => TokenValue::Nop,
            kinds::ID => TokenValue::Identity,
            _ => TokenValue::EndOfFile,
        }
    }
}

impl NameKind {
    // The value of a name's token.
    #[tactic(auto, unfolding(crate::specs::Tokens::value_of, utils::specs::Bytes::pick))]
    pub fn value(self, id: Identifier) -> TokenValue
        ensures { result ≡ value_of (name_kind self) id.0 }
    {
        match self {
            NameKind::Local => TokenValue::Local(id),
            NameKind::Global => TokenValue::Global(id),
            NameKind::Label => TokenValue::Label(id),
        }
    }
}

// Whether n bytes from i of one slice are those from j of another. From the back: names that are numbered differ there.
pub fn same_bytes(a: &[u8], i: usize, b: &[u8], j: usize, n: usize) -> bool
    requires { (i + n ≤ length a.now) × (j + n ≤ length b.now) }
    ensures { result ≡ same_bytes (slice i (i + n) a.now) (slice j (j + n) b.now) }
{
    for k in (0..n).rev() {
        if a[i + k] != b[j + k] {
            return false;
        }
    }
    true
}

// Whether two slices of bytes are the same. Not by `==`, which begins at the front.
#[tactic(auto, using(crate::proofs::Compare::other_length, crate::proofs::Compare::same_whole))]
pub fn same(a: &[u8], b: &[u8]) -> bool
    ensures { result ≡ same_bytes a.now b.now }
{
    a.len() == b.len() && same_bytes(a, 0, b, 0, b.len())
}

// The value of a word, where a part of the text is that word.
#[tactic(auto, unfolding(crate::proofs::Words::opened))]
fn only(part: &[u8], word: &[u8], value: TokenValue) -> Option<TokenValue>
    ensures { result
        ≡ word_in (record { spelling = word.now; value = value } ∷ []) part.now }
{
    same(word, part).then_some(value)
}

// The same of two words.
#[tactic(auto, unfolding(crate::proofs::Words::opened))]
fn either(
    part: &[u8],
    word: &[u8],
    value: TokenValue,
    other: &[u8],
    second: TokenValue,
) -> Option<TokenValue>
    ensures { result
        ≡ word_in (record { spelling = word.now; value = value }
        ∷ record { spelling = other.now; value = second } ∷ []) part.now }
{
    if same(word, part) {
        return Some(value);
    }
    only(part, other, second)
}

// The lengths of the words.
const SHORTEST: usize = 2;

const LONGEST: usize = 5;

// The value of a word of the language, or none. No three words share their first letter.
#[tactic(auto, using(crate::proofs::Words::by_letter), unfolding(crate::proofs::Words::opened))]
pub(crate) fn get_keyword(part: &[u8]) -> Option<TokenValue>
    ensures { result ≡ keyword part.now }
{
    if part.len() < SHORTEST || LONGEST < part.len() {
        return None;
    }
    match part[0] {
        b'a' => either(part, b"add", TokenValue::Add, b"and", TokenValue::And),
        b'b' => either(part, b"br", TokenValue::Branch, b"bool", TokenValue::Bool),
        b'c' => either(part, b"call", TokenValue::Call, b"const", TokenValue::Const),
        b'd' => only(part, b"div", TokenValue::Div),
        b'e' => only(part, b"eq", TokenValue::Equal),
        b'f' => only(part, b"false", TokenValue::False),
        b'g' => either(
            part,
            b"gt",
            TokenValue::GreaterThan,
            b"ge",
            TokenValue::GreaterThanOrEq,
        ),
        b'i' => either(part, b"id", TokenValue::Identity, b"int", TokenValue::Int),
        b'j' => only(part, b"jmp", TokenValue::Jump),
        b'l' => either(
            part,
            b"lt",
            TokenValue::LessThan,
            b"le",
            TokenValue::LessThanOrEq,
        ),
        b'm' => either(part, b"mul", TokenValue::Mul, b"mod", TokenValue::Mod),
        b'n' => either(part, b"not", TokenValue::Not, b"nop", TokenValue::Nop),
        b'o' => only(part, b"or", TokenValue::Or),
        b'p' => only(part, b"print", TokenValue::Print),
        b'r' => only(part, b"ret", TokenValue::Return),
        b's' => only(part, b"sub", TokenValue::Sub),
        b't' => only(part, b"true", TokenValue::True),
        _ => None,
    }
}

#[tactic(auto, unfolding(crate::specs::Tokens::symbol, utils::specs::Bytes::pick))]
pub(crate) fn from_char(b: u8) -> Option<TokenValue>
    ensures { result ≡ symbol b }
{
    match b {
        b'(' => Some(TokenValue::LeftParen),
        b')' => Some(TokenValue::RightParen),
        b'{' => Some(TokenValue::LeftBrace),
        b'}' => Some(TokenValue::RightBrace),
        b':' => Some(TokenValue::Colon),
        b';' => Some(TokenValue::Semicolon),
        b'=' => Some(TokenValue::Define),
        b',' => Some(TokenValue::Comma),
        _ => None,
    }
}
