// Tokens and names as cells (docs/INTERFACE.md): those of a record, and those of a slice that has room for the limits.
use utils::limits;

pub const TOKEN_CELLS: usize = 4;

pub const NAME_CELLS: usize = 2;

pub const TOKENS: usize = limits::TOKENS * TOKEN_CELLS;

pub const NAMES: usize = limits::NAMES * NAME_CELLS;
