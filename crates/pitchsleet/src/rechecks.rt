// From an old text, the bytes of its header table, a number and a new text to the bytes of the recheck.
ghost use Rattle.std.specs.Prelude.{◌≡◌, ◌+◌, ◌*◌, ◌/◌, ◌≤◌, length};
ghost use Rattle.std.proofs.lemmas.List.Edits.{sets};
ghost use Rattle.functions.specs.Answer.{SameSlices, held};
ghost use Rattle.recheck.specs.Recheck.{recheck_of};
ghost use Rattle.utils.specs.Limits.{message_size};
ghost use Rattle.exports.specs.CheckBytes.{Sizes, export, exported, check_size};
ghost use Rattle.pitchsleet.specs.RecheckBytes.{cell_at, cells_at, cell_count, table_of};

use checker::CheckAnswer;
use exports::layout;
use functions::{UnitSlices, columns, sizes};

// Four bytes as a cell, the lowest first.
fn get_cell(bytes: &[u8], at: usize) -> u32
    requires { at + 4 ≤ length bytes.now }
    ensures { result ≡ cell_at bytes.now at }
{
    u32::from_le_bytes([bytes[at], bytes[at + 1], bytes[at + 2], bytes[at + 3]])
}

// The first n cells.
fn get_cells(cells: &mut [u32], bytes: &[u8], n: usize)
    requires { (n * 4 ≤ length bytes.now) × (n ≤ length cells.old) }
    ensures { cells.new ≡ sets cells.old 0 (cells_at bytes.now 0 n) }
{
    for i in 0..n {
        cells[i] = get_cell(bytes, i * layout::CELL);
    }
}

// How many cells so many bytes have, at most a header table's.
#[tactic(auto, unfolding(crate::specs::RecheckBytes::cell_count, utils::specs::Bytes::pick))]
fn cell_count(bytes: usize) -> usize
    ensures { result ≡ cell_count bytes }
{
    (bytes / layout::CELL).min(columns::TABLE)
}

// Rechecks into the front of cells, and stores those as bytes.
fn recheck_cells<'t, 'a>(
    old: &'t [u8],
    table: &[u32],
    number: u32,
    new: &'t [u8],
    tokens: &mut [u32; lexer::sizes::TOKENS],
    names: &mut [u32; lexer::sizes::NAMES],
    unit: &mut UnitSlices<'a>,
    out: &mut [u8],
    message: &mut [u8],
) -> CheckAnswer
    requires { Sizes tokens.old names.old
        (held unit.old)
        × (check_size ≤ length out.old) × (message_size ≤ length message.old) }
    ensures stored { export result out.new message.new
        ≡ exported out.old message.old
        (recheck_of old.now table.now number new.now) }
    ensures same { SameSlices unit.old unit.new }
{
    let answer = rechecker::recheck_into(old, table, number, new, tokens, names, unit, message);
    // Fields that go into one call are lent before it, each as `&mut`: the borrow checker covers no other form.
    let functions = &mut *unit.functions;
    let items = &mut *unit.items;
    let arguments = &mut *unit.arguments;
    let blocks = &mut *unit.blocks;
    let predecessors = &mut *unit.predecessors;
    exports::check::put_all(
        answer,
        tokens,
        names,
        functions,
        items,
        arguments,
        blocks,
        predecessors,
        out,
    );
    read::finish_message(answer.number, message);
    answer
}

// With room for the table's cells and for all others.
pub fn recheck_out<'t>(
    old: &'t [u8],
    table: &[u8],
    number: u32,
    new: &'t [u8],
    out: &mut [u8],
    message: &mut [u8],
) -> CheckAnswer
    requires { (check_size ≤ length out.old) × (message_size ≤ length message.old) }
    ensures { export result out.new message.new
        ≡ exported out.old message.old
        (recheck_of old.now (table_of table.now) number new.now) }
{
    let mut cells = [0u32; columns::TABLE];
    let n = cell_count(table.len());
    get_cells(&mut cells, table, n);
    let mut tokens = [0u32; lexer::sizes::TOKENS];
    let mut names = [0u32; lexer::sizes::NAMES];
    let mut functions = [0u32; columns::TABLE];
    let mut items = [0u32; sizes::ITEMS];
    let mut arguments = [0u32; sizes::ARGUMENTS];
    let mut blocks = [0u32; sizes::BLOCKS];
    let mut predecessors = [0u32; sizes::PREDECESSORS];
    let mut unit = UnitSlices {
        functions: &mut functions,
        items: &mut items,
        arguments: &mut arguments,
        blocks: &mut blocks,
        predecessors: &mut predecessors,
    };
    recheck_cells(
        old,
        &cells[0..n],
        number,
        new,
        &mut tokens,
        &mut names,
        &mut unit,
        out,
        message,
    )
}
