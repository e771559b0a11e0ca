// The kinds of items (docs/INTERFACE.md), by the Rust's names. A kind from `JUMP` on is a terminator's. Numbers, and no
// enum: a record is read from cells, and those may hold any number.
pub const LABEL: u32 = 1;

pub const BINARY: u32 = 2;

pub const UNARY: u32 = 3;

pub const CONST: u32 = 4;

pub const CALL: u32 = 5;

pub const CALL_INTO: u32 = 6;

pub const PRINT: u32 = 7;

pub const NOP: u32 = 8;

pub const JUMP: u32 = 9;

pub const BRANCH: u32 = 10;

pub const RET: u32 = 11;

pub const RET_VALUE: u32 = 12;
