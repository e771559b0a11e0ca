// The offsets in `out` (docs/INTERFACE.md), in bytes: tokens stand first, the others in this order.
use functions::{columns, sizes};

// The bytes of a cell.
pub const CELL: usize = 4;

pub const NAMES: usize = lexer::sizes::TOKENS * CELL;

pub const FUNCTIONS: usize = NAMES + lexer::sizes::NAMES * CELL;

pub const ITEMS: usize = FUNCTIONS + columns::TABLE * CELL;

pub const ARGUMENTS: usize = ITEMS + sizes::ITEMS * CELL;

pub const BLOCKS: usize = ARGUMENTS + sizes::ARGUMENTS * CELL;

pub const PREDECESSORS: usize = BLOCKS + sizes::BLOCKS * CELL;

// The bytes that read fills, and those that check fills.
pub const READ: usize = FUNCTIONS;

pub const CHECKED: usize = PREDECESSORS + sizes::PREDECESSORS * CELL;
