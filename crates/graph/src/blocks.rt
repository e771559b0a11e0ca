// A block's record and its cells: stored and read nowhere else.
ghost use Rattle.std.specs.Prelude.{◌≡◌, ◌+◌, ◌*◌, ◌≤◌, length};
ghost use Rattle.std.proofs.lemmas.List.Edits.{sets};
ghost use Rattle.graph.specs.Records.{block_at, cells_of};

use crate::{BLOCK_CELLS, BlockId, BlockRecord};
use utils::{cell_at, put_cells};

// Stores record i.
pub fn put_block(blocks: &mut [u32], i: usize, b: BlockRecord)
    requires { i * 8 + 8 ≤ length blocks.old }
    ensures { blocks.new ≡ sets blocks.old (i * 8) (cells_of b) }
{
    let cells = [
        b.first,
        b.operations,
        b.successors,
        b.to.0,
        b.other.0,
        b.entries,
        b.predecessors,
        b.dead,
    ];
    put_cells(blocks, i * BLOCK_CELLS, &cells);
}

// Record i, with 0 for every cell past the end.
pub fn block_at(blocks: &[u32], i: usize) -> BlockRecord
    requires { i ≤ 8589934592 }
    ensures { result ≡ block_at blocks.now i }
{
    let at = i * BLOCK_CELLS;
    BlockRecord {
        first: cell_at(blocks, at),
        operations: cell_at(blocks, at + 1),
        successors: cell_at(blocks, at + 2),
        to: BlockId(cell_at(blocks, at + 3)),
        other: BlockId(cell_at(blocks, at + 4)),
        entries: cell_at(blocks, at + 5),
        predecessors: cell_at(blocks, at + 6),
        dead: cell_at(blocks, at + 7),
    }
}
