// The cells of the slices beside the header table's (docs/INTERFACE.md has the count of each record, and why it is
// enough for a text inside the limits).
use body::ITEM_CELLS;
use graph::BLOCK_CELLS;
use parser::VARIABLE_CELLS;

pub const ITEMS: usize = 3072 * ITEM_CELLS;

pub const ARGUMENTS: usize = 3464 * VARIABLE_CELLS;

pub const BLOCKS: usize = 1024 * BLOCK_CELLS;

pub const PREDECESSORS: usize = 2048;
