// Decodes a file of fixed cases: numbers, and lists of numbers or bytes, as host/tests/support/case_file.rs has them.
// A byte follows every number and every list of a good file. So a place that is the file's length says that the file is
// malformed; each function here passes it on, and the caller looks once.
#![tactic(auto)]

ghost use Rattle.std.specs.Prelude.{◌≡◌, ◌+◌, ◌-◌, ◌*◌, ◌%◌, ◌≤◌, false, length, drop};
ghost use Rattle.replay.specs.Numbers.{in_comment, to_digit, number_at};

pub mod cases;
pub mod held;
pub mod input;
pub mod lists;
pub mod parts;

use parts::Part;

#[derive(Clone, Copy)]
pub struct Number {
    pub value: u32,
    pub next: usize,
}

// How many cells a list has, and the place after it.
#[derive(Clone, Copy)]
pub struct Loaded {
    pub count: usize,
    pub next: usize,
}

// What a case showed: the first part that differs, if one does, the number that the answer must have, and the place in
// the file after what was held to it.
#[derive(Clone, Copy)]
pub struct Outcome {
    pub part: Option<Part>,
    pub number: u32,
    pub next: usize,
}

// How many cases a list has, how many came out as expected so far, how many are left; how many cases of the file there
// were so far in all, and the place after them.
#[derive(Clone, Copy)]
pub struct Tally {
    pub count: u32,
    pub right: u32,
    pub left: u32,
    pub index: u64,
    pub next: usize,
}

// Whether a byte stands in a comment, by whether the byte before it did.
fn in_comment(before: bool, b: u8) -> bool
    ensures { result ≡ in_comment before b }
{
    b != b'\n' && (b == b'#' || before)
}

// The place of the next digit that stands in no comment.
fn digit_from(data: &[u8], from: usize) -> usize
    ensures { (result ≤ length «data».now)
        × (drop result «data».now ≡ to_digit false (drop from «data».now)) }
{
    let mut comment = false;
    for at in from..data.len() {
        let b = data[at];
        comment = in_comment(comment, b);
        if b.is_ascii_digit() && !comment {
            return at;
        }
    }
    data.len()
}

// A number with one more digit, to 32 bits: a number of the file has no more.
fn with_digit(value: u32, b: u8) -> u32
    requires { 48 ≤ b }
    ensures { result ≡ (value * 10 + (b - 48)) % 4294967296 }
{
    value.wrapping_mul(10).wrapping_add(u32::from(b - b'0'))
}

pub fn number_at(data: &[u8], from: usize) -> Number
    ensures { result ≡ number_at «data».now from }
{
    let mut value = 0;
    for at in digit_from(data, from)..data.len() {
        let b = data[at];
        if !b.is_ascii_digit() {
            return Number { value, next: at };
        }
        value = with_digit(value, b);
    }
    Number {
        value: 0,
        next: data.len(),
    }
}
