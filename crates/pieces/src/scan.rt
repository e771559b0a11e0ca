// The classes of bytes, and the scans to the end of a comment, a number, a name.
ghost use Rattle.std.specs.Prelude.{◌≡◌, true, false, ◌+◌, ◌-◌, ◌*◌, ◌≤◌, drop, get_or};
ghost use Rattle.pieces.specs.Classes.{is_blank, is_digit, is_letter, is_name_part, is_ascii};
ghost use Rattle.pieces.specs.Pieces.{line_end, closes, star_after, comment_end, name_end, number_at};
ghost use Rattle.pieces.specs.Capped.{capped, capped_number};

use crate::Number;

#[tactic(auto, using(crate::proofs::Picked::tests), unfolding(crate::specs::Classes::is_blank))]
pub(crate) fn is_blank(b: u8) -> bool
    ensures { result ≡ is_blank b }
{
    matches!(b, b' ' | b'\t' | b'\r')
}

pub(crate) fn is_digit(b: u8) -> bool
    ensures { result ≡ is_digit b }
{
    b.is_ascii_digit()
}

pub(crate) fn is_letter(b: u8) -> bool
    ensures { result ≡ is_letter b }
{
    b.is_ascii_alphabetic()
}

#[tactic(auto, unfolding(crate::specs::Classes::is_name_part, utils::specs::Bytes::pick))]
fn is_name_part(b: u8) -> bool
    ensures { result ≡ is_name_part b }
{
    is_letter(b) || is_digit(b) || b == b'_'
}

// It looks at all bytes, whatever it finds: so the compiled loop takes many at a time.
pub fn is_ascii(text: &[u8]) -> bool
    ensures { result ≡ is_ascii text.now }
{
    let mut most: u8 = 0;
    for &b in text {
        most = most.max(b);
    }
    most.is_ascii()
}

// The byte at a place, or 0 past the end, as in the Rust.
pub(crate) fn peek(text: &[u8], at: usize) -> u8
    ensures { result ≡ get_or text.now at 0 }
{
    text.get(at).copied().unwrap_or(0)
}

// The place after the newline that ends a comment, or the text's end.
#[tactic(auto, unfolding(crate::specs::Pieces::line_end, utils::specs::Bytes::pick))]
pub(crate) fn line_end(text: &[u8], at: usize) -> usize
    ensures { result ≡ line_end (drop at text.now) at }
{
    for i in at..text.len() {
        if text[i] == b'\n' {
            return i + 1;
        }
    }
    at.max(text.len())
}

#[tactic(auto, unfolding(crate::specs::Pieces::closes, utils::specs::Bytes::pick))]
fn closes_comment(star: bool, b: u8) -> bool
    ensures { result ≡ closes star b }
{
    star && b == b'/'
}

// A byte that stands behind a star is used up, so that a star there begins nothing.
#[tactic(auto, unfolding(crate::specs::Pieces::star_after, utils::specs::Bytes::pick))]
fn star_after(star: bool, b: u8) -> bool
    ensures { result ≡ star_after star b }
{
    !star && b == b'*'
}

// From after a comment's opening to after its closing, where it has one.
pub(crate) fn comment_end(text: &[u8], at: usize) -> Option<usize>
    ensures { result ≡ comment_end false (drop at text.now) at }
{
    let mut star = false;
    for i in at..text.len() {
        let b = text[i];
        if closes_comment(star, b) {
            return Some(i + 1);
        }
        star = star_after(star, b);
    }
    None
}

// One more than the largest number that a minus may stand before.
const MOST: u64 = 2147483649;

// One digit more. Where the number has left the range of 32 bits it stays there, whatever digits follow.
fn grow(value: u64, b: u8) -> u64
    requires { (value ≤ 2147483649) × (is_digit b ≡ true) }
    ensures { result ≡ capped (value * 10 + (b - 48)) }
{
    (value * 10 + u64::from(b - b'0')).min(MOST)
}

pub(crate) fn lex_number(text: &[u8], at: usize) -> Number
    ensures { result ≡ capped_number (number_at text.now at) }
{
    let mut value: u64 = 0;
    for i in at..text.len() {
        let b = text[i];
        if !is_digit(b) {
            return Number { value, end: i };
        }
        value = grow(value, b);
    }
    Number {
        value,
        end: at.max(text.len()),
    }
}

// The place after the letters, digits and `_` that stand from a place on.
#[tactic(auto, unfolding(crate::specs::Pieces::name_end, utils::specs::Bytes::pick))]
pub(crate) fn name_end(text: &[u8], at: usize) -> usize
    ensures { result ≡ name_end (drop at text.now) at }
{
    for i in at..text.len() {
        if !is_name_part(text[i]) {
            return i;
        }
    }
    at.max(text.len())
}
