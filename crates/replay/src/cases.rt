// Lists of cases: how far one is replayed, and what came of it.
ghost use Rattle.std.specs.Prelude.{◌≡◌, ◌<◌, ◌==◌, IfOk};
ghost use Rattle.replay.specs.Cases.{begun, one_more, Gives, Replayed, whole_with};

use crate::{Outcome, Tally, number_at};
use std::io;

// The list at a place, behind so many cases.
pub fn begin(data: &[u8], from: usize, index: u64) -> Tally
    ensures { result ≡ begun «data».now from index }
{
    let cases = number_at(data, from);
    Tally {
        count: cases.value,
        right: 0,
        left: cases.value,
        index,
        next: cases.next,
    }
}

// Tells of a case that came out otherwise than expected, in a file that does not end in it.
fn tell(rt: &impl Print, data: &[u8], index: u64, case: Outcome) -> io::Result<()> {
    match case.part {
        Some(part) if case.next < data.len() => println!(rt; "case {index}: {part}"),
        _ => Ok(()),
    }
}

// The list with one case more. None is left where the file is malformed.
pub fn step(data: &[u8], list: Tally, case: Outcome) -> Tally
    requires { 0 < list.left }
    ensures value { result ≡ one_more «data».now list case }
    ensures left_lt_left { result.left < list.left }
{
    let right = if case.part.is_none() { 1 } else { 0 };
    let left = if case.next < data.len() {
        list.left - 1
    } else {
        0
    };
    Tally {
        count: list.count,
        right: list.right.wrapping_add(right),
        left,
        index: list.index.wrapping_add(1),
        next: case.next,
    }
}

// The same, told of where the case came out otherwise than expected.
pub fn report_step(rt: &impl Print, data: &[u8], list: Tally, case: Outcome) -> io::Result<Tally>
    requires { 0 < list.left }
    ensures value { IfOk result (λ next. next ≡ one_more «data».now list case) }
    ensures left_lt_left { IfOk result (λ next. next.left < list.left) }
{
    tell(rt, data, list.index, case)?;
    Ok(step(data, list, case))
}

// A list of cases, each replayed by `run` from its place in the file, to the last or to where the file is malformed.
pub fn replay<F: Fn(&[u8], usize) -> Outcome>(
    rt: &impl Print,
    data: &[u8],
    from: usize,
    index: u64,
    run: F,
) -> io::Result<Tally>
    requires { F.IsAlwaysCallable run }
    ensures replayed { IfOk result
        (Replayed «data».now (Gives F.Fn run «data».now) (begun «data».now from index)) }
    ensures none_left { IfOk result (λ list. list.left ≡ 0) }
{
    let mut list = begin(data, from, index);
    while 0 < list.left {
        list = report_step(rt, data, list, run(data, list.next))?;
    }
    Ok(list)
}

// Whether the mark at the file's end, behind the last list, is the count of all cases.
pub fn is_whole(data: &[u8], last: Tally) -> bool
    ensures { result ≡ whole_with «data».now last }
{
    let end = number_at(data, last.next);
    end.next != data.len() && u64::from(end.value) == last.index
}

// The same, told of where it is not.
pub fn report_whole(rt: &impl Print, data: &[u8], last: Tally) -> io::Result<bool>
    ensures { IfOk result (λ whole. whole ≡ whole_with «data».now last) }
{
    let whole = is_whole(data, last);
    if !whole {
        println!(rt; "the file of cases is malformed")?;
    }
    Ok(whole)
}

// Writes what came of a list, and answers whether all its cases came out as expected.
pub fn print_tally(rt: &impl Print, list: Tally, what: &[u8]) -> io::Result<bool>
    ensures { IfOk result (λ all. all ≡ (list.right == list.count)) }
{
    print!(rt; "{}", list.count)?;
    rt.write_all(what)?;
    println!(rt; "{} as expected", list.right)?;
    Ok(list.right == list.count)
}
