// A type as a cell (docs/INTERFACE.md).
pub const PLACEHOLDER: u32 = 0;

pub const INT: u32 = 1;

pub const BOOL: u32 = 2;

pub const VOID: u32 = 3;

// Function type 0; the others follow by their numbers.
pub const FUNCTION: u32 = 4;
