// The header table (docs/INTERFACE.md): its cells, those of a row, and where a row's cells stand for row 0.
use parser::VARIABLE_CELLS;
use utils::limits;

pub const TABLE: usize = 1 + limits::FUNCTIONS * ROW;

pub const ROW: usize = FORMALS - TOKEN + limits::FORMALS * VARIABLE_CELLS;

// The name's token, the name, the closing token.
pub const TOKEN: usize = 1;

pub const NAME: usize = 2;

pub const CLOSE: usize = 3;

// The name's place, its length, its line.
pub const PLACE: usize = 4;

pub const LENGTH: usize = 5;

pub const LINE: usize = 6;

// The result type, the function type's number.
pub const RESULT: usize = 7;

pub const TYPE: usize = 8;

// The first item and how many there are; the first block and how many there are.
pub const FIRST_ITEM: usize = 9;

pub const ITEMS: usize = 10;

pub const FIRST_BLOCK: usize = 11;

pub const BLOCKS: usize = 12;

// How many formals there are, and where they begin, a name and a type each.
pub const COUNT: usize = 13;

pub const FORMALS: usize = 14;

pub const FORMAL_TYPE: usize = FORMALS + 1;

// Where row 1 has its formals.
pub const SECOND_FORMALS: usize = FORMALS + ROW;
