// Typing: Sema of bril-lib/src/parser.rs, with SymbolTable of ir.rs.
#![tactic(auto)]

ghost use Rattle.functions.specs.Columns.{HasRows};

mod blocks;
mod calls;
pub mod function;
mod operations;
mod symbols;

// A call's arguments: `count` of them, from the argument `first` of the slice of all calls' arguments on.
#[derive(Clone, Copy)]
pub struct Arguments {
    pub first: u32,
    pub count: u32,
}

// What the typing of a function reads: Sema of parser.rs, but for its table of names. `ret` is the function's result
// type.
#[derive(Clone, Copy)]
struct Sema<'a> {
    tokens: &'a [u32],
    rows: &'a [u32],
    functions: usize,
    ret: u32,
    items: &'a [u32],
    arguments: &'a [u32],
    ghost has_rows: { HasRows rows.now functions },
}
