// The lists of a file.
ghost use Rattle.std.specs.Prelude.{◌≡◌, ◌+◌, ◌-◌, ◌*◌, ◌≤◌, ◌<◌, ◌==◌, length, min, nat_le, nat_lt, if◌then◌else◌, take};
ghost use Rattle.std.proofs.lemmas.List.Edits.{sets};
ghost use Rattle.std.proofs.Math.Seq.{slice};
ghost use Rattle.replay.specs.Lists.{hex_of, escaped_at, byte_at, value_at, values_at, stepped, repeated};
ghost use Rattle.replay.specs.Lists.{behind_quote, run_at, fitting, room, list_at, Stored, low_bytes, text_at};

use crate::{Loaded, Number, number_at};

// As many cells as the longest slice that is lent: no list of a file has more.
pub const ROOM: usize = 24592;

// What the values of a list are. Bytes are quoted.
#[derive(Clone, Copy)]
pub enum Kind {
    Numbers,
    Bytes,
}

// The value of a hexadecimal digit.
#[tactic(auto, unfolding(crate::specs::Lists::hex_of))]
fn hex(b: u8) -> u32
    ensures value { result ≡ hex_of b }
    ensures upper_bound { result ≤ 15 }
{
    if b.is_ascii_digit() {
        u32::from(b - b'0')
    } else {
        (u32::from(b) + 9) % 16
    }
}

#[tactic(auto, unfolding(crate::specs::Lists::escaped_at))]
fn escaped_at(data: &[u8], at: usize) -> Number
    requires { at < length «data».now }
    ensures { result ≡ escaped_at «data».now at }
{
    let end = data.len();
    if end - at < 3 {
        return Number {
            value: 0,
            next: end,
        };
    }
    let high = hex(data[at + 1]);
    let low = hex(data[at + 2]);
    Number {
        value: high * 16 + low,
        next: at + 3,
    }
}

// A byte of a quoted text: itself, or a backslash and two digits.
#[tactic(auto, unfolding(crate::specs::Lists::byte_at))]
fn byte_at(data: &[u8], at: usize) -> Number
    ensures { result ≡ byte_at «data».now at }
{
    let end = data.len();
    if end <= at {
        return Number {
            value: 0,
            next: end,
        };
    }
    let b = data[at];
    if b == b'\\' {
        return escaped_at(data, at);
    }
    Number {
        value: u32::from(b),
        next: at + 1,
    }
}

fn value_at(data: &[u8], at: usize, kind: Kind) -> Number
    ensures { result ≡ value_at kind «data».now at }
{
    match kind {
        Kind::Numbers => number_at(data, at),
        Kind::Bytes => byte_at(data, at),
    }
}

// Where a run's values begin, after its width: a quoted text after a blank and the quote.
fn behind_quote(data: &[u8], at: usize, kind: Kind) -> usize
    ensures { result ≡ behind_quote kind «data».now at }
{
    match kind {
        Kind::Numbers => at,
        Kind::Bytes => at.saturating_add(2).min(data.len()),
    }
}

// The file's next values, as many as there are cells for them. Answers the place after them.
fn load_values(data: &[u8], from: usize, kind: Kind, cells: &mut [u32]) -> usize
    ensures value { result ≡ (values_at kind «data».now (length cells.old) from).next }
    ensures cells_after { cells.new ≡ (values_at kind «data».now (length cells.old) from).cells }
{
    let mut at = from;
    for cell in cells.iter_mut() {
        let number = value_at(data, at, kind);
        *cell = number.value;
        at = number.next;
    }
    at
}

// The file's next numbers, as many as there are cells for them. Answers the place after them.
pub fn load_numbers(data: &[u8], from: usize, cells: &mut [u32]) -> usize
    ensures value { result ≡ (values_at Kind.Numbers «data».now (length cells.old) from).next }
    ensures cells_after { cells.new ≡ (values_at Kind.Numbers «data».now (length cells.old) from).cells }
{
    load_values(data, from, Kind::Numbers, cells)
}

// How much of a slice is lent: as much as the file says, and at most all of it.
pub fn lent(length: u32, room: usize) -> usize
    ensures value { result ≡ min length room }
    ensures upper_bound { result ≤ room }
{
    (length as usize).min(room)
}

// Stores a row of `width` cells behind the row at `start`, each larger by a step of the file, and answers the place
// after the steps.
fn load_row(data: &[u8], from: usize, cells: &mut [u32], start: usize, width: usize) -> usize
    requires { start + width + width ≤ length cells.old }
    ensures value { result ≡ (values_at Kind.Numbers «data».now width from).next }
    ensures cells_after { cells.new ≡ sets cells.old (start + width)
        (stepped (slice start (start + width) cells.old)
        (values_at Kind.Numbers «data».now width from).cells) }
{
    // By index: the slice is read and written.
    let mut at = from;
    for here in start..start + width {
        let step = number_at(data, at);
        cells[here + width] = cells[here].wrapping_add(step.value);
        at = step.next;
    }
    at
}

// Repeats the row that stands first so many times more, and answers the count of cells then and the place after the
// steps.
fn load_rows(data: &[u8], from: usize, cells: &mut [u32], width: usize, more: usize) -> Loaded
    requires { width + more * width ≤ length cells.old }
    ensures count { result.count ≡ width + more * width }
    ensures next { result.next ≡ (if nat_lt 0 more then (values_at Kind.Numbers «data».now width from).next else from) }
    ensures cells_after { cells.new ≡ sets cells.old width
        (repeated more
        (stepped (take width cells.old)
        (values_at Kind.Numbers «data».now width from).cells)
        (values_at Kind.Numbers «data».now width from).cells) }
{
    let mut next = from;
    for row in 0..more {
        next = load_row(data, from, cells, row * width, width);
    }
    Loaded {
        count: width + more * width,
        next,
    }
}

// How many times more the values of a run stand. None are repeated where there are none.
fn times_more(times: u32, width: u32) -> u32
    ensures { result ≡ (if width == 0 then 0 else times - 1) }
{
    if width == 0 {
        0
    } else {
        times.saturating_sub(1)
    }
}

fn has_room(room: usize, width: u32, more: u32) -> bool
    ensures { result ≡ nat_le (width + more * width) room }
{
    u64::from(width) + u64::from(more) * u64::from(width) <= room as u64
}

// One run. Where the cells have no room for it, nothing is stored and the file is malformed.
fn load_run(data: &[u8], from: usize, kind: Kind, cells: &mut [u32]) -> Loaded
    ensures { Stored (fitting (length cells.old) (length «data».now) (run_at kind «data».now from))
        cells.old result cells.new }
{
    let times = number_at(data, from);
    let width = number_at(data, times.next);
    let more = times_more(times.value, width.value);
    if !has_room(cells.len(), width.value, more) {
        return Loaded {
            count: 0,
            next: data.len(),
        };
    }
    let wide = width.value as usize;
    let at = behind_quote(data, width.next, kind);
    let next = load_values(data, at, kind, &mut cells[..wide]);
    load_rows(data, next, cells, wide, more as usize)
}

// A list, first in the cells.
pub(crate) fn load(data: &[u8], from: usize, kind: Kind, cells: &mut [u32]) -> Loaded
    ensures stored { Stored (list_at kind «data».now (length cells.old) from)
        cells.old result cells.new }
    ensures count_in_bounds { result.count ≤ length cells.old }
{
    let runs = number_at(data, from);
    let mut count = 0;
    let mut at = runs.next;
    for _done in 0..runs.value {
        if at == data.len() {
            return Loaded { count, next: at };
        }
        let run = load_run(data, at, kind, &mut cells[count..]);
        count += run.count;
        at = run.next;
    }
    Loaded { count, next: at }
}

// The cells of a list as bytes.
fn narrow(cells: &[u32], bytes: &mut [u8])
    ensures { bytes.new ≡ sets bytes.old 0 (low_bytes cells.now) }
{
    // By index: of a `zip` with an `iter_mut` a proof doesn't learn what is stored.
    for i in 0..cells.len().min(bytes.len()) {
        bytes[i] = (cells[i] % 256) as u8;
    }
}

// A list of bytes as a text, by way of the cells. Where the text has no room for it, the file is malformed.
fn text_by(data: &[u8], from: usize, cells: &mut [u32], text: &mut [u8]) -> Loaded
    ensures stored { Stored
        (text_at «data».now (length cells.old) (length text.old) from)
        text.old result text.new }
    ensures count_in_bounds { result.count ≤ length text.old }
{
    let list = load(data, from, Kind::Bytes, cells);
    if text.len() < list.count {
        return Loaded {
            count: 0,
            next: data.len(),
        };
    }
    narrow(&cells[..list.count], text);
    list
}

// The file's next list of bytes, as a text.
pub fn load_text(data: &[u8], from: usize, text: &mut [u8]) -> Loaded
    ensures stored { Stored (text_at «data».now room (length text.old) from)
        text.old result text.new }
    ensures count_in_bounds { result.count ≤ length text.old }
{
    let mut cells = [0u32; ROOM];
    text_by(data, from, &mut cells, text)
}
