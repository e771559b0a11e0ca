// A function: its formals, then its blocks in the walk's order.
ghost use Rattle.std.specs.Prelude.{◌≡◌, ◌+◌, ◌*◌, ◌≤◌, ◌<◌, length, get_or};
ghost use Rattle.lexer.specs.Decoded.{tokens_of};
ghost use Rattle.functions.specs.Columns.{row_at, first_block_at, block_count_at, IsRow, table_size};
ghost use Rattle.graph.specs.Worklist.{remaining};
ghost use Rattle.utils.specs.Limits.{most_functions, most_blocks};
ghost use Rattle.sema.specs.Symbols.{typed};
ghost use Rattle.sema.specs.Globals.{globals_in};
ghost use Rattle.sema.specs.Blocks.{formals_from, formals_in, enter_formals_d};
ghost use Rattle.sema.specs.Blocks.{type_block_d, type_blocks_d, block_items, blocks_at, in_order, type_row_d};

use crate::{Sema, calls, symbols};
use functions::columns;
use graph::RPOWorklist;
use graph::blocks::block_at;
use parser::{Refusal, VARIABLE_CELLS};
use pieces::Identifier;
use utils::limits;

// Enters the formals from the cell `first` on.
fn enter_formals(
    table: &mut [u32],
    token: u32,
    rows: &[u32],
    first: usize,
    count: u32,
) -> Result<(), Refusal>
    requires { first + count * 2 ≤ length rows.now }
    ensures { typed table.new result
        ≡ enter_formals_d table.old token (formals_from rows.now first count) }
{
    let w = token as usize;
    for i in 0..count {
        let at = first + i as usize * VARIABLE_CELLS;
        symbols::insert(table, w, Identifier(rows[at]), rows[at + 1])?;
    }
    Ok(())
}

// The function's name is the token of its formals.
fn enter_row(table: &mut [u32], rows: &[u32], row: usize) -> Result<(), Refusal>
    requires { IsRow rows.now row }
    ensures { typed table.new result
        ≡ enter_formals_d table.old (get_or rows.now (row_at row) 0)
        (formals_in rows.now row) }
{
    let at = row * columns::ROW;
    let token = rows[columns::TOKEN + at];
    let count = calls::at_most_16(rows[columns::COUNT + at]);
    enter_formals(table, token, rows, columns::FORMALS + at, count)
}

impl<'a> Sema<'a> {
    // The block of a record.
    fn analyze_recorded(self, table: &mut [u32], blocks: &[u32], k: usize) -> Result<(), Refusal>
        requires { k ≤ 8589934592 }
        ensures { typed table.new result
            ≡ type_block_d (tokens_of self.entry.tokens.now)
            (globals_in self.entry.rows.now self.entry.functions) self.entry.ret table.old
            (block_items self.entry.items.now self.entry.arguments.now blocks.now k) }
    {
        let b = block_at(blocks, k);
        self.analyze_block(table, b.first, b.operations)
    }

    // The blocks that the worklist still has.
    fn analyze_remaining(
        self,
        table: &mut [u32],
        blocks: &[u32],
        first: u32,
        order: &[u32; limits::BLOCKS],
        work: RPOWorklist,
    ) -> Result<(), Refusal>
        requires { (length order.now ≡ most_blocks) × (work.blocks ≤ most_blocks) }
        ensures { typed table.new result
            ≡ type_blocks_d (tokens_of self.entry.tokens.now)
            (globals_in self.entry.rows.now self.entry.functions) self.entry.ret table.old
            (blocks_at self.entry.items.now self.entry.arguments.now blocks.now first
            (remaining order.now work)) }
    {
        let mut left = work;
        while let Some((b, rest)) = left.pop(order) {
            let k = first as usize + b.0 as usize;
            self.analyze_recorded(table, blocks, k)?;
            left = rest;
        }
        Ok(())
    }

    fn analyze_blocks(self, table: &mut [u32], row: usize, blocks: &[u32]) -> Result<(), Refusal>
        requires { row < most_functions }
        ensures { typed table.new result
            ≡ type_blocks_d (tokens_of self.entry.tokens.now)
            (globals_in self.entry.rows.now self.entry.functions) self.entry.ret table.old
            (in_order self.entry.items.now self.entry.arguments.now blocks.now
            (get_or self.entry.rows.now (first_block_at row) 0) (get_or self.entry.rows.now (block_count_at row) 0)) }
    {
        let first = self.rows[columns::FIRST_BLOCK + row * columns::ROW];
        let count = self.rows[columns::BLOCKS + row * columns::ROW];
        let mut order = [0u32; limits::BLOCKS];
        let work = RPOWorklist::new(blocks, first, count, &mut order);
        self.analyze_remaining(table, blocks, first, &order, work)
    }
}

// One table of names per function.
#[tactic(auto, unfolding(crate::specs::Symbols::opened, crate::specs::Blocks::type_function_d))]
pub fn analyze(
    tokens: &[u32],
    rows: &[u32],
    n: usize,
    row: usize,
    table: &mut [u32],
    items: &[u32],
    arguments: &[u32],
    blocks: &[u32],
) -> Result<(), Refusal>
    requires { (n ≤ most_functions) × (row < most_functions) × (table_size ≤ length rows.now) }
    ensures { typed table.new result
        ≡ type_row_d (tokens_of tokens.now) rows.now n items.now arguments.now
        blocks.now row table.old }
{
    utils::clear(table);
    enter_row(table, rows, row)?;
    let sema = Sema {
        tokens,
        rows,
        functions: n,
        ret: calls::result_type(rows, row),
        items,
        arguments,
    };
    sema.analyze_blocks(table, row, blocks)
}
