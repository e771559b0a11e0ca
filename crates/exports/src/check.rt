// From a text to the bytes of its check.
ghost use Rattle.std.specs.Prelude.{◌≡◌, ◌≤◌, length};
ghost use Rattle.utils.specs.Bytes.{pad_to};
ghost use Rattle.functions.specs.Answer.{SameSlices, held, slices};
ghost use Rattle.checker.specs.Check.{check_of};
ghost use Rattle.utils.specs.Limits.{message_size};
ghost use Rattle.exports.specs.CheckBytes.{front_bytes, Sizes, export, exported, check_size};

use crate::{layout, put_front};
use body::ITEM_CELLS;
use checker::CheckAnswer;
use functions::UnitSlices;
use graph::BLOCK_CELLS;
use lexer::sizes::{NAME_CELLS, TOKEN_CELLS};
use parser::VARIABLE_CELLS;

// The cells that an answer counts, one slice after the other, and zeros.
pub fn put_all(
    r: CheckAnswer,
    tokens: &[u32],
    names: &[u32],
    functions: &[u32],
    items: &[u32],
    arguments: &[u32],
    blocks: &[u32],
    predecessors: &[u32],
    out: &mut [u8],
)
    requires { Sizes tokens.now names.now
        (slices functions.now items.now arguments.now blocks.now predecessors.now)
        × (check_size ≤ length out.old) }
    ensures { out.new ≡ pad_to (length out.old)
        (front_bytes r tokens.now names.now
        (slices functions.now items.now arguments.now blocks.now predecessors.now)) }
{
    put_front(out, 0, tokens, r.tokens as usize * TOKEN_CELLS);
    put_front(out, layout::NAMES, names, r.names as usize * NAME_CELLS);
    put_front(out, layout::FUNCTIONS, functions, checker::rows_used(r));
    put_front(out, layout::ITEMS, items, r.items as usize * ITEM_CELLS);
    put_front(
        out,
        layout::ARGUMENTS,
        arguments,
        r.arguments as usize * VARIABLE_CELLS,
    );
    put_front(out, layout::BLOCKS, blocks, r.blocks as usize * BLOCK_CELLS);
    put_front(
        out,
        layout::PREDECESSORS,
        predecessors,
        r.predecessors as usize,
    );
    out[layout::CHECKED..].fill(0);
}

// Checks into the front of cells, and stores those as bytes.
pub fn check_out<'a>(
    text: &[u8],
    tokens: &mut [u32; lexer::sizes::TOKENS],
    names: &mut [u32; lexer::sizes::NAMES],
    unit: &mut UnitSlices<'a>,
    out: &mut [u8],
    message: &mut [u8],
) -> CheckAnswer
    requires { Sizes tokens.old names.old
        (held unit.old)
        × (check_size ≤ length out.old) × (message_size ≤ length message.old) }
    ensures stored { export result out.new message.new
        ≡ exported out.old message.old (check_of text.now) }
    ensures same { SameSlices unit.old unit.new }
{
    let answer = checker::check_into(text, tokens, names, unit, message);
    // Fields that go into one call are lent before it, each as `&mut`: the borrow checker covers no other form.
    let functions = &mut *unit.functions;
    let items = &mut *unit.items;
    let arguments = &mut *unit.arguments;
    let blocks = &mut *unit.blocks;
    let predecessors = &mut *unit.predecessors;
    put_all(
        answer,
        tokens,
        names,
        functions,
        items,
        arguments,
        blocks,
        predecessors,
        out,
    );
    read::finish_message(answer.number, message);
    answer
}
