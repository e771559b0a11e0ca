// Calls `check` or `recheck`, lending as much of the slices as a case says, and holds all that came of it to the file.
use crate::given::Given;
use checker::CheckAnswer;
use functions::{columns, sizes};
use replay::held::{OLD_BYTE, OLD_CELL, SPARE};
use replay::parts::{Cells, Part};
use replay::{Outcome, held, lists};
use utils::limits;

// The slices that are lent.
#[derive(Drop)]
struct Slices<'s> {
    tokens: &'s mut [u32],
    names: &'s mut [u32],
    functions: &'s mut [u32],
    items: &'s mut [u32],
    arguments: &'s mut [u32],
    blocks: &'s mut [u32],
    predecessors: &'s mut [u32],
    message: &'s mut [u8],
}

// The call itself.
fn call(given: Option<Given>, text: &[u8], slices: &mut Slices) -> CheckAnswer {
    match given {
        Some(given) => rechecker::recheck(
            given.old,
            given.table,
            given.number,
            text,
            slices.tokens,
            slices.names,
            slices.functions,
            slices.items,
            slices.arguments,
            slices.blocks,
            slices.predecessors,
            slices.message,
        ),
        None => checker::check(
            text,
            slices.tokens,
            slices.names,
            slices.functions,
            slices.items,
            slices.arguments,
            slices.blocks,
            slices.predecessors,
            slices.message,
        ),
    }
}

// An answer's numbers, held to the file.
fn compare_numbers(data: &[u8], from: usize, answer: CheckAnswer) -> Outcome {
    let numbers = [
        (Part::Number, answer.number),
        (Part::Line, answer.line),
        (Part::Place, answer.place),
        (Part::Count(Cells::Tokens), answer.tokens),
        (Part::Count(Cells::Names), answer.names),
        (Part::Count(Cells::Functions), answer.functions),
        (Part::Count(Cells::Items), answer.items),
        (Part::Count(Cells::Arguments), answer.arguments),
        (Part::Count(Cells::Blocks), answer.blocks),
        (Part::Count(Cells::Predecessors), answer.predecessors),
    ];
    held::holds_numbers(data, from, &numbers)
}

// The slices, held to the file after what was.
fn compare_slices(data: &[u8], seen: Outcome, slices: &Slices) -> Outcome {
    let t = held::holds(data, seen, Part::Cells(Cells::Tokens), slices.tokens);
    let n = held::holds(data, t, Part::Cells(Cells::Names), slices.names);
    let f = held::holds(data, n, Part::Cells(Cells::Functions), slices.functions);
    let i = held::holds(data, f, Part::Cells(Cells::Items), slices.items);
    let a = held::holds(data, i, Part::Cells(Cells::Arguments), slices.arguments);
    let b = held::holds(data, a, Part::Cells(Cells::Blocks), slices.blocks);
    let p = held::holds(
        data,
        b,
        Part::Cells(Cells::Predecessors),
        slices.predecessors,
    );
    held::holds(data, p, Part::Message, slices.message)
}

// The call, and all that came of it held to the file.
fn ask(
    data: &[u8],
    from: usize,
    given: Option<Given>,
    text: &[u8],
    slices: &mut Slices,
) -> Outcome {
    let answer = call(given, text, slices);
    compare_slices(data, compare_numbers(data, from, answer), slices)
}

// A case with its text, and with what it is given if it is one of recheck: the slices are made anew, longer than their
// sizes, and hold the old pattern. As much of each is lent as the file says, where the lengths stand in the slices'
// order.
pub fn with_slices(data: &[u8], from: usize, given: Option<Given>, text: &[u8]) -> Outcome {
    let mut lengths = [0u32; 8];
    let next = lists::load_numbers(data, from, &mut lengths);
    let mut tokens = [OLD_CELL; lexer::sizes::TOKENS + SPARE];
    let mut names = [OLD_CELL; lexer::sizes::NAMES + SPARE];
    let mut functions = [OLD_CELL; columns::TABLE + SPARE];
    let mut items = [OLD_CELL; sizes::ITEMS + SPARE];
    let mut arguments = [OLD_CELL; sizes::ARGUMENTS + SPARE];
    let mut blocks = [OLD_CELL; sizes::BLOCKS + SPARE];
    let mut predecessors = [OLD_CELL; sizes::PREDECESSORS + SPARE];
    let mut message = [OLD_BYTE; limits::MESSAGE + SPARE];
    let t = lists::lent(lengths[0], tokens.len());
    let n = lists::lent(lengths[1], names.len());
    let f = lists::lent(lengths[2], functions.len());
    let i = lists::lent(lengths[3], items.len());
    let a = lists::lent(lengths[4], arguments.len());
    let b = lists::lent(lengths[5], blocks.len());
    let p = lists::lent(lengths[6], predecessors.len());
    let m = lists::lent(lengths[7], message.len());
    let mut slices = Slices {
        tokens: &mut tokens[..t],
        names: &mut names[..n],
        functions: &mut functions[..f],
        items: &mut items[..i],
        arguments: &mut arguments[..a],
        blocks: &mut blocks[..b],
        predecessors: &mut predecessors[..p],
        message: &mut message[..m],
    };
    ask(data, next, given, text, &mut slices)
}
