// The table of names: IdentifierTable of the Rust. A name is two cells, its first appearance's place and its length.
ghost use Rattle.std.specs.Prelude.{◌≡◌, ◌+◌, ◌-◌, ◌*◌, ◌≤◌, ◌<◌, length, get_or};
ghost use Rattle.std.proofs.Math.Seq.{slice};
ghost use Rattle.std.proofs.lemmas.List.Edits.{sets};
ghost use Rattle.utils.specs.Bytes.{same_bytes};
ghost use Rattle.pieces.specs.Pieces.{name};
ghost use Rattle.lexer.specs.Sizes.{name_width};
ghost use Rattle.lexer.specs.Numbered.{index_of, spellings, identified};
ghost use Rattle.lexer.specs.Steps.{first_names, Table, new_cells, print_of, spelled_at, Prints};

use crate::Identified;
use crate::sizes::NAME_CELLS;
use pieces::{Cursor, Identifier, NameKind, Refusal, tokens};
use utils::{limits, put_cells};

// A byte counts so many times as much as the one behind it, more than any two bytes of names differ by; and how many
// prints there are.
const FACTOR: u64 = 129;

const PRINTS: u64 = 4294967296;

// A number that equal names share: most names are told apart by it, wherever their bytes differ.
#[tactic(auto, unfolding(crate::specs::Steps::print_from))]
fn print_of(name: &[u8]) -> u32
    ensures { result ≡ print_of name.now }
{
    let mut sum: u64 = 0;
    for &b in name {
        sum = (sum * FACTOR + u64::from(b)) % PRINTS;
    }
    sum as u32
}

// Whether m bytes of the text from a are the n bytes from b.
fn same_name(text: &[u8], a: usize, m: usize, b: usize, n: usize) -> bool
    requires { (a + m ≤ length text.now) × (b + n ≤ length text.now) }
    ensures { result
        ≡ same_bytes (slice a (a + m) text.now) (slice b (b + n) text.now) }
{
    if m != n {
        return false;
    }
    tokens::same_bytes(text, a, text, b, n)
}

// The names that a text has so far: their cells, their prints, and how many there are.
#[derive(Clone, Copy)]
struct Known<'a> {
    text: &'a [u8],
    names: &'a [u32],
    prints: &'a [u32],
    count: usize,
}

impl<'a> Known<'a> {
    // Whether name k is spelled as the `len` bytes from `place`, of which `print` is kept.
    fn is_name(self, k: usize, place: usize, len: usize, print: u32) -> bool
        requires { (k < self.count) × Table self.text.now self.names.now self.count
            × Prints self.text.now self.names.now self.count self.prints.now
            × (get_or self.names.now (k * 2) 0 + get_or self.names.now (k * 2 + 1) 0 ≤ length self.text.now)
            × (place + len ≤ length self.text.now)
            × (print ≡ print_of (slice place (place + len) self.text.now)) }
        ensures { result
            ≡ same_bytes (spelled_at self.entry.text.now self.entry.names.now k)
            (slice place (place + len) self.entry.text.now) }
    {
        if self.prints[k] != print {
            return false;
        }
        let p = k * NAME_CELLS;
        let a = self.names[p] as usize;
        let n = self.names[p + 1] as usize;
        same_name(self.text, a, n, place, len)
    }

    // The number of the first that is spelled as the `len` bytes from `place`.
    fn lookup(self, place: usize, len: usize, print: u32) -> Option<Identifier>
        requires { Table self.text.now self.names.now self.count
            × Prints self.text.now self.names.now self.count self.prints.now
            × (place + len ≤ length self.text.now)
            × (print ≡ print_of (slice place (place + len) self.text.now)) }
        ensures { result ≡ index_of (slice place (place + len) self.entry.text.now)
            (spellings self.entry.text.now (first_names self.entry.count self.entry.names.now)) 0 }
    {
        for k in 0..self.count {
            if self.is_name(k, place, len, print) {
                return Some(Identifier(k as u32));
            }
        }
        None
    }
}

// The number of the name of `len` bytes that begins there, of whatever kind, as of a local's; a new name is stored
// behind the `count` that there are.
#[tactic(auto, unfolding(crate::specs::Numbered::identified, utils::specs::Bytes::pick))]
pub fn get_identifier(
    text: &[u8],
    names: &mut [u32],
    prints: &[u32],
    count: usize,
    at: Cursor,
    len: usize,
) -> Result<Identified, Refusal>
    requires { Table text.now names.old count × Prints text.now names.old count prints.now
        × (at.place + len ≤ length text.now) }
    ensures value { result
        ≡ identified text.now (first_names count names.old) (name NameKind.Local at.place len at.line) }
    ensures names_after { names.new ≡ sets names.old (count * name_width)
        (new_cells (name NameKind.Local at.place len at.line) result) }
{
    let place = at.place;
    if limits::NAME_BYTES < len {
        return Err(Refusal::NameTooLong(at));
    }
    let print = print_of(&text[place..place + len]);
    let known = Known {
        text,
        names,
        prints,
        count,
    };
    match known.lookup(place, len, print) {
        Some(i) => Ok(Identified::Known(i)),
        None => {
            if limits::NAMES <= count {
                return Err(Refusal::TooManyNames(at));
            }
            let part = [place as u32, len as u32];
            put_cells(names, count * NAME_CELLS, &part);
            Ok(Identified::New(Identifier(count as u32)))
        }
    }
}

// Keeps the print of a name that is new: there were `count` names, and are `then`.
pub fn keep_print(text: &[u8], names: &[u32], prints: &mut [u32], count: usize, then: usize)
    requires { Table text.now names.now then × Prints text.now names.now count prints.old
        × (then ≤ count + 1) }
    ensures { Prints text.now names.now then prints.new }
{
    if count < then {
        let p = count * NAME_CELLS;
        let q = p + 1;
        let place = names[p] as usize;
        let end = place + names[q] as usize;
        prints[count] = print_of(&text[place..end]);
    }
}
