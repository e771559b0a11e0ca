// Document 01's numbers, and document 02's 43 (docs/INTERFACE.md has the message of each): of a text that is accepted,
// and of refusals.
pub const ACCEPTED: u32 = 0;

// Of the reading of a text.
pub const NOT_ASCII: u32 = 1;

pub const COMMENT_NOT_CLOSED: u32 = 2;

pub const UNEXPECTED_BYTE: u32 = 3;

pub const NUMBER_EXPECTED: u32 = 4;

pub const NUMBER_OUT_OF_RANGE: u32 = 43;

// Of the parser: another token than the one that is expected, and what else is missing or out of place.
pub const TOKEN_EXPECTED: u32 = 5;

pub const NO_LOCAL: u32 = 6;

pub const NO_GLOBAL: u32 = 7;

pub const NO_LABEL: u32 = 8;

pub const NO_TYPE: u32 = 9;

pub const NO_CONSTANT: u32 = 10;

pub const UNEXPECTED_TOKEN: u32 = 11;

pub const NO_LABEL_FIRST: u32 = 12;

pub const DUPLICATE_LABEL: u32 = 13;

pub const MISSING_TARGET: u32 = 14;

// Of typing: a name that has another type already, or none; another type or count than the one that is expected.
pub const UNEXPECTED_TYPE: u32 = 15;

pub const UNDEFINED: u32 = 16;

pub const OTHER_TYPE: u32 = 17;

pub const VOID_VALUE: u32 = 18;

pub const NO_VALUE: u32 = 19;

pub const OTHER_COUNT: u32 = 20;

pub const NO_TERMINATOR: u32 = 21;

pub const EMPTY_BLOCK: u32 = 22;

// A lent slice is shorter than its size.
pub const SHORT_BUFFER: u32 = 30;

// A limit is passed.
pub const TOO_MANY_BYTES: u32 = 31;

pub const TOO_MANY_TOKENS: u32 = 32;

pub const TOO_MANY_NAMES: u32 = 33;

pub const NAME_TOO_LONG: u32 = 34;

pub const TOO_MANY_FUNCTIONS: u32 = 35;

pub const TOO_MANY_FORMALS: u32 = 36;

pub const TOO_MANY_ARGUMENTS: u32 = 37;

pub const TOO_MANY_LABELS: u32 = 38;

// Of recheck.
pub const NOT_ONE_FUNCTION: u32 = 40;

pub const HEADER_CHANGED: u32 = 41;

pub const BAD_TABLE: u32 = 42;
