// The message form of utils/src/lib.rs, and the reads, stores and clears of lent buffers that every crate shares.
#![tactic(auto)]

pub mod limits;
pub mod numbers;

ghost use Rattle.std.specs.Prelude.{◌≡◌, ◌+◌, ◌-◌, ◌<◌, ◌≤◌, [], length, get_or, take, replicate};
ghost use Rattle.std.proofs.lemmas.List.Edits.{sets};
ghost use Rattle.utils.specs.Bytes.{pad_to};
ghost use Rattle.utils.specs.Message.{digits, decimal, reported};

// Zero from a place to another.
#[tactic(auto, using(crate::proofs::Runs::stored))]
pub fn clear_part(cells: &mut [u32], from: usize, to: usize)
    requires { (from ≤ to) × (to ≤ length cells.old) }
    ensures { cells.new ≡ sets cells.old from (replicate (to - from) 0) }
{
    cells[from..to].fill(0);
}

// Zero from a place on.
pub fn clear_from(cells: &mut [u32], from: usize)
    ensures { cells.new ≡ pad_to (length cells.old) (take from cells.old) }
{
    let from = from.min(cells.len());
    cells[from..].fill(0);
}

// All zero.
pub fn clear(cells: &mut [u32])
    ensures { cells.new ≡ pad_to (length cells.old) [] }
{
    cells.fill(0);
}

// All zero.
pub fn clear_bytes(buf: &mut [u8])
    ensures { buf.new ≡ pad_to (length buf.old) [] }
{
    buf.fill(0);
}

// A cell, or 0 past the end.
pub fn cell_at(cells: &[u32], at: usize) -> u32
    ensures { result ≡ get_or cells.now at 0 }
{
    cells.get(at).copied().unwrap_or(0)
}

// Stores cells or bytes one after the other, from a place on. Not by `copy_from_slice`, which calls memmove: the archive
// is to need no more of the C library than memcpy and memset.
pub fn put_cells<T: Copy>(cells: &mut [T], at: usize, part: &[T])
    requires { at + length part.now ≤ length cells.old }
    ensures { cells.new ≡ sets cells.old at part.now }
{
    for i in 0..part.len() {
        cells[at + i] = part[i];
    }
}

// Stores a part from a place on, and hands back the place after it.
pub fn put(buf: &mut [u8], at: usize, part: &[u8]) -> usize
    requires { at + length part.now ≤ length buf.old }
    ensures { (result ≡ at + length part.now)
        × (buf.new ≡ sets buf.old at part.now) }
{
    put_cells(buf, at, part);
    at + part.len()
}

// The digit 0.
const ZERO: u32 = b'0' as u32;

// The highest digits first, so that no digit is stored twice.
#[tactic(auto, using(crate::proofs::Runs::none, crate::proofs::Runs::one))]
fn put_digits(buf: &mut [u8], at: usize, n: u32, most: usize) -> usize
    requires { at + most ≤ length buf.old }
    ensures { (result ≡ at + length (digits most n))
        × (buf.new ≡ sets buf.old at (digits most n)) × (result ≤ at + most) }
{
    if most == 0 {
        return at;
    }
    if n < 10 {
        buf[at] = (ZERO + n) as u8;
        return at + 1;
    }
    let k = put_digits(buf, at, n / 10, most - 1);
    buf[k] = (ZERO + n % 10) as u8;
    k + 1
}

// The digits of a number of 32 bits, at most.
const DIGITS: usize = 10;

// A number in decimal, and the place after it.
pub fn put_decimal(buf: &mut [u8], at: usize, n: u32) -> usize
    requires { at + 10 ≤ length buf.old }
    ensures { (result ≡ at + length (decimal n))
        × (buf.new ≡ sets buf.old at (decimal n)) × (result ≤ at + 10) }
{
    put_digits(buf, at, n, DIGITS)
}

// Everything of a message from its start, and the place after it.
fn put_report(buf: &mut [u8], line: u32, item: &[u8], text: &[u8]) -> usize
    requires { 27 + length item.now + length text.now ≤ length buf.old }
    ensures { (result ≡ length (reported line item.now text.now))
        × (result ≤ length buf.old)
        × (buf.new ≡ sets buf.old 0 (reported line item.now text.now)) }
{
    let p1 = put(buf, 0, b"[line ");
    let p2 = put_decimal(buf, p1, line);
    let p3 = put(buf, p2, b"] Error ");
    let p4 = put(buf, p3, item);
    let p5 = put(buf, p4, b": ");
    let p6 = put(buf, p5, text);
    put(buf, p6, b"\n")
}

// DiagnosticEmitter::report: the message, and zeros after it.
#[tactic(auto, using(crate::proofs::Runs::on_zeros))]
pub fn report(buf: &mut [u8], line: u32, item: &[u8], text: &[u8])
    requires { 27 + length item.now + length text.now ≤ length buf.old }
    ensures { buf.new
        ≡ pad_to (length buf.old) (reported line item.now text.now) }
{
    clear_bytes(buf);
    put_report(buf, line, item, text);
}

// DiagnosticEmitter::error: a message with no ITEM.
pub fn error(buf: &mut [u8], line: u32, text: &[u8])
    requires { 27 + length text.now ≤ length buf.old }
    ensures { buf.new
        ≡ pad_to (length buf.old) (reported line [] text.now) }
{
    report(buf, line, b"", text);
}
