// Typing, function by function: the types of a function's operands are written while the table still has its names.
ghost use Rattle.std.specs.Prelude.{[], ◌+◌, ◌*◌, ◌≤◌, length};
ghost use Rattle.utils.specs.Bytes.{pad_to};
ghost use Rattle.lexer.specs.Decoded.{tokens_of};
ghost use Rattle.functions.specs.Columns.{table_size};
ghost use Rattle.utils.specs.Limits.{most_functions};
ghost use Rattle.unit.specs.Rows.{RowsFit, typed_rows, RowsHeld};

use functions::columns;
use parser::Refusal;
use utils::limits;

// The `more` functions from row `first` on, of n, in text order.
fn type_with(
    tokens: &[u32],
    rows: &[u32],
    n: usize,
    first: usize,
    more: usize,
    table: &mut [u32],
    items: &mut [u32],
    arguments: &mut [u32],
    blocks: &[u32],
) -> Result<(), Refusal>
    requires { (n ≤ most_functions) × (first + more ≤ most_functions) × (table_size ≤ length rows.now)
        × RowsFit rows.now n first more (length items.old) }
    ensures { RowsHeld result items.new arguments.new
        (typed_rows (tokens_of tokens.now) rows.now n blocks.now
        table.old first more items.old arguments.old) }
{
    for row in first..first + more {
        sema::function::analyze(tokens, rows, n, row, table, items, arguments, blocks)?;
        let start = rows[columns::FIRST_ITEM + row * columns::ROW] as usize;
        let count = rows[columns::ITEMS + row * columns::ROW] as usize;
        elaborate::elaborate(table, rows, n, items, start, count, arguments);
    }
    Ok(())
}

// With a table for 1,024 names.
pub fn type_rows(
    tokens: &[u32],
    rows: &[u32],
    n: usize,
    first: usize,
    more: usize,
    items: &mut [u32],
    arguments: &mut [u32],
    blocks: &[u32],
) -> Result<(), Refusal>
    requires { (n ≤ most_functions) × (first + more ≤ most_functions) × (table_size ≤ length rows.now)
        × RowsFit rows.now n first more (length items.old) }
    ensures { RowsHeld result items.new arguments.new
        (typed_rows (tokens_of tokens.now) rows.now n blocks.now
        (pad_to 1024 []) first more items.old arguments.old) }
{
    let mut table = [0u32; limits::NAMES];
    type_with(
        tokens, rows, n, first, more, &mut table, items, arguments, blocks,
    )
}
