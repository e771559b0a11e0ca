// The kinds of tokens (docs/INTERFACE.md). Names, and integers.
pub const LOCAL: u32 = 1;

pub const GLOBAL: u32 = 2;

pub const LABEL: u32 = 3;

pub const INTEGER: u32 = 4;

// Words of arithmetic.
pub const ADD: u32 = 5;

pub const MUL: u32 = 6;

pub const SUB: u32 = 7;

pub const DIV: u32 = 8;

pub const MOD: u32 = 9;

// Boolean constants.
pub const TRUE: u32 = 10;

pub const FALSE: u32 = 11;

// Comparisons.
pub const EQ: u32 = 12;

pub const LT: u32 = 13;

pub const GT: u32 = 14;

pub const LE: u32 = 15;

pub const GE: u32 = 16;

// Boolean operators.
pub const NOT: u32 = 17;

pub const AND: u32 = 18;

pub const OR: u32 = 19;

// Terminators and calls.
pub const JMP: u32 = 20;

pub const BR: u32 = 21;

pub const CALL: u32 = 22;

pub const RET: u32 = 23;

// The signs `=` `(` `)` `{` `}` `:` `;` `,`.
pub const DEFINE: u32 = 24;

pub const LEFT_PAREN: u32 = 25;

pub const RIGHT_PAREN: u32 = 26;

pub const LEFT_BRACE: u32 = 27;

pub const RIGHT_BRACE: u32 = 28;

pub const COLON: u32 = 29;

pub const SEMICOLON: u32 = 30;

pub const COMMA: u32 = 31;

// Types.
pub const INT: u32 = 32;

pub const BOOL: u32 = 33;

// The other words.
pub const CONST: u32 = 34;

pub const PRINT: u32 = 35;

pub const NOP: u32 = 36;

pub const ID: u32 = 37;

// The end token.
pub const END_OF_FILE: u32 = 38;
