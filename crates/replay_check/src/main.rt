// Replays fixed cases against `checker::check` and `rechecker::recheck`, and compares all that they answer and write.
// The cases stand on standard input; host/examples/replay_check.rs makes them, and says what the file holds and where
// the expected answers come from.
#![tactic(auto)]

mod given;
mod lend;

use functions::columns;
use given::Given;
use replay::held::SPARE;
use replay::{Outcome, cases, input, lists};
use std::io;

// A case with room for its text, and with what it is given if it is one of recheck.
fn with_text(data: &[u8], from: usize, given: Option<Given>, text: &mut [u8]) -> Outcome {
    let list = lists::load_text(data, from, text);
    lend::with_slices(data, list.next, given, &text[..list.count])
}

// A case of check.
fn check_case(data: &[u8], from: usize) -> Outcome {
    let mut text = [0u8; lists::ROOM];
    with_text(data, from, None, &mut text)
}

// A case of recheck, with room for its old text and the header table.
fn recheck_case(data: &[u8], from: usize) -> Outcome {
    let mut old = [0u8; lists::ROOM];
    let mut table = [0u32; columns::TABLE + SPARE];
    let mut text = [0u8; lists::ROOM];
    let (given, next) = given::load(data, from, &mut old, &mut table);
    with_text(data, next, Some(given), &mut text)
}

// The three lists of cases.
fn run(rt: &impl Print, data: &[u8]) -> io::Result<()> {
    let texts = cases::replay(rt, data, 0, 0, check_case)?;
    let shorts = cases::replay(rt, data, texts.next, texts.index, check_case)?;
    let rechecks = cases::replay(rt, data, shorts.next, shorts.index, recheck_case)?;
    if !cases::report_whole(rt, data, rechecks)? {
        return Ok(());
    }
    cases::print_tally(rt, texts, b" texts: ")?;
    cases::print_tally(rt, shorts, b" calls with a short slice: ")?;
    cases::print_tally(rt, rechecks, b" rechecks: ")?;
    Ok(())
}

// Reads the file into the room for it. The array is made outside, where nothing else is done with it.
fn start(rt: &(impl Input + Print), data: &mut [u8]) -> io::Result<()> {
    let got = input::read_full(&mut rt.reader(), data)?;
    run(rt, &data[..got])
}

// Room for the file of cases.
const FILE: usize = 524288;

fn main(rt: HostRuntime) -> io::Result<()> {
    let mut data = [0u8; FILE];
    start(&rt, &mut data)
}
