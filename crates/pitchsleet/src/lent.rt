// The C functions on lent cells: what `read::read`, `checker::check` and `rechecker::recheck` promise, for a host that
// keeps slices of cells. Nothing is copied.
ghost use Rattle.functions.specs.Answer.{slices};
ghost use Rattle.lexer.specs.Read.{Reads};
ghost use Rattle.checker.specs.Promise.{Checks};
ghost use Rattle.recheck.specs.Promise.{Rechecks};

use checker::CheckAnswer;
use lexer::ReadAnswer;

// Document 01's reading.
#[unsafe(no_mangle)]
pub extern "C" fn pitchsleet_read_cells(
    text: &[u8],
    tokens: &mut [u32],
    names: &mut [u32],
    message: &mut [u8],
) -> ReadAnswer
    ensures { Reads text.now tokens.old names.old message.old
        result tokens.new names.new message.new }
{
    read::read(text, tokens, names, message)
}

// Document 01's check.
#[unsafe(no_mangle)]
pub extern "C" fn pitchsleet_check_cells(
    text: &[u8],
    tokens: &mut [u32],
    names: &mut [u32],
    functions: &mut [u32],
    items: &mut [u32],
    arguments: &mut [u32],
    blocks: &mut [u32],
    predecessors: &mut [u32],
    message: &mut [u8],
) -> CheckAnswer
    ensures { Checks text.now message.old tokens.old names.old
        (slices functions.old items.old arguments.old blocks.old
        predecessors.old)
        result message.new tokens.new names.new
        (slices functions.new items.new arguments.new blocks.new
        predecessors.new) }
{
    checker::check(
        text,
        tokens,
        names,
        functions,
        items,
        arguments,
        blocks,
        predecessors,
        message,
    )
}

// Document 01's recheck: `table` are the cells that a check wrote for the old text's functions.
#[unsafe(no_mangle)]
pub extern "C" fn pitchsleet_recheck_cells<'t>(
    old: &'t [u8],
    table: &[u32],
    number: u32,
    new: &'t [u8],
    tokens: &mut [u32],
    names: &mut [u32],
    functions: &mut [u32],
    items: &mut [u32],
    arguments: &mut [u32],
    blocks: &mut [u32],
    predecessors: &mut [u32],
    message: &mut [u8],
) -> CheckAnswer
    ensures { Rechecks old.now table.now number new.now
        message.old tokens.old names.old
        (slices functions.old items.old arguments.old blocks.old
        predecessors.old)
        result message.new tokens.new names.new
        (slices functions.new items.new arguments.new blocks.new
        predecessors.new) }
{
    rechecker::recheck(
        old,
        table,
        number,
        new,
        tokens,
        names,
        functions,
        items,
        arguments,
        blocks,
        predecessors,
        message,
    )
}
