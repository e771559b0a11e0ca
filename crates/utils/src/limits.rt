// Document 01's limits, as lengths and counts.
pub const BYTES: usize = 16384;

pub const TOKENS: usize = 4096;

pub const NAMES: usize = 1024;

// Of a name, its sigil with it.
pub const NAME_BYTES: usize = 64;

pub const FUNCTIONS: usize = 64;

// Of a function.
pub const FORMALS: usize = 16;

pub const LABELS: usize = 255;

pub const BLOCKS: usize = 256;

// Of a call.
pub const ARGUMENTS: usize = 16;

// A message's room.
pub const MESSAGE: usize = 512;

// The same as cells hold them, and what a line is at most in a text inside the limits.
pub const MOST_BYTES: u32 = BYTES as u32;

pub const MOST_LINES: u32 = BYTES as u32 + 1;

pub const MOST_NAME_BYTES: u32 = NAME_BYTES as u32;

pub const MOST_FUNCTIONS: u32 = FUNCTIONS as u32;

pub const MOST_FORMALS: u32 = FORMALS as u32;

pub const MOST_BLOCKS: u32 = BLOCKS as u32;
