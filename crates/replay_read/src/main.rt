// Replays fixed cases against `read::read`, and compares all that it answers and writes. The cases stand on
// standard input; host/examples/replay_read.rs makes them, and says what the file holds and where the expected answers
// come from.
#![tactic(auto)]

use lexer::sizes;
use replay::held::{OLD_BYTE, OLD_CELL, SPARE};
use replay::parts::{Cells, Part};
use replay::{Outcome, cases, held, input, lists};
use std::io;
use utils::limits;

// An answer and the slices, held to the file.
fn compare(
    data: &[u8],
    from: usize,
    answer: lexer::ReadAnswer,
    tokens: &[u32],
    names: &[u32],
    message: &[u8],
) -> Outcome {
    let numbers = [
        (Part::Number, answer.number),
        (Part::Line, answer.line),
        (Part::Place, answer.place),
        (Part::Count(Cells::Tokens), answer.tokens),
        (Part::Count(Cells::Names), answer.names),
    ];
    let a = held::holds_numbers(data, from, &numbers);
    let t = held::holds(data, a, Part::Cells(Cells::Tokens), tokens);
    let n = held::holds(data, t, Part::Cells(Cells::Names), names);
    held::holds(data, n, Part::Message, message)
}

// The call itself, and all that came of it held to the file.
fn ask(
    data: &[u8],
    from: usize,
    text: &[u8],
    tokens: &mut [u32],
    names: &mut [u32],
    message: &mut [u8],
) -> Outcome {
    let answer = read::read(text, tokens, names, message);
    compare(data, from, answer, tokens, names, message)
}

// A case with its text: the slices are made anew, longer than their sizes, and hold the old pattern. As much of each
// is lent as the file says, where the lengths stand in the slices' order.
fn with_slices(data: &[u8], from: usize, text: &[u8]) -> Outcome {
    let mut lengths = [0u32; 3];
    let next = lists::load_numbers(data, from, &mut lengths);
    let mut tokens = [OLD_CELL; sizes::TOKENS + SPARE];
    let mut names = [OLD_CELL; sizes::NAMES + SPARE];
    let mut message = [OLD_BYTE; limits::MESSAGE + SPARE];
    let t = lists::lent(lengths[0], tokens.len());
    let n = lists::lent(lengths[1], names.len());
    let m = lists::lent(lengths[2], message.len());
    ask(
        data,
        next,
        text,
        &mut tokens[..t],
        &mut names[..n],
        &mut message[..m],
    )
}

// A case with room for its text.
fn with_text(data: &[u8], from: usize, text: &mut [u8]) -> Outcome {
    let list = lists::load_text(data, from, text);
    with_slices(data, list.next, &text[..list.count])
}

fn run_case(data: &[u8], from: usize) -> Outcome {
    let mut text = [0u8; lists::ROOM];
    with_text(data, from, &mut text)
}

// The two lists of cases.
fn run(rt: &impl Print, data: &[u8]) -> io::Result<()> {
    let texts = cases::replay(rt, data, 0, 0, run_case)?;
    let shorts = cases::replay(rt, data, texts.next, texts.index, run_case)?;
    if !cases::report_whole(rt, data, shorts)? {
        return Ok(());
    }
    cases::print_tally(rt, texts, b" texts: ")?;
    cases::print_tally(rt, shorts, b" calls with a short slice: ")?;
    Ok(())
}

// Room for the file of cases.
const FILE: usize = 131072;

fn main(rt: HostRuntime) -> io::Result<()> {
    let mut data = [0u8; FILE];
    let got = input::read_full(&mut rt.reader(), &mut data)?;
    run(&rt, &data[..got])
}
