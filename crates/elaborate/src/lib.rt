// The types of operands, written once a function is typed: what Sema's analyze_op hands back in the Rust.
#![tactic(auto)]

ghost use Rattle.std.specs.Prelude.{◌≡◌, ℕ, ◌+◌, ◌*◌, ◌≤◌, ◌<◌, length, get_or, set};
ghost use Rattle.functions.specs.Columns.{type_at, table_size};
ghost use Rattle.utils.specs.Limits.{most_functions};
ghost use Rattle.elaborate.specs.Types.{callee_of, typed_last, typed_record, typed_run, typed_arguments};
ghost use Rattle.elaborate.specs.Types.{typed_items, typed_calls, Elaborated};

use body::{ItemRecord, Last, kinds, records};
use functions::known;
use parser::{VARIABLE_CELLS, types};
use pieces::Identifier;
use utils::cell_at;

// The function type of the first function of this name among n.
fn callee_type(rows: &[u32], n: usize, name: Identifier) -> u32
    requires { (n ≤ most_functions) × (table_size ≤ length rows.now)
        × ((i : ℕ) → i < n → get_or rows.now (type_at i) 0 ≤ most_functions) }
    ensures { result ≡ callee_of rows.now n name.0 }
{
    match known::find_function(rows, n, name) {
        Some(i) => known::function_type(rows, i) + types::FUNCTION,
        None => 0,
    }
}

// A right operand with its type.
#[tactic(auto, unfolding(crate::specs::Types::typed_last))]
fn typed_last(table: &[u32], last: Last) -> Last
    ensures { result ≡ typed_last table.now last }
{
    match last {
        Last::Name(x, _) => Last::Name(x, cell_at(table, x.0 as usize)),
        Last::Labels { .. } | Last::Run { .. } => last,
    }
}

// An item with the types of its operands.
#[tactic(auto, unfolding(crate::specs::Types::typed_record, crate::specs::Types::is_call, utils::specs::Bytes::pick))]
fn typed_record(r: ItemRecord, table: &[u32], rows: &[u32], n: usize) -> ItemRecord
    requires { (n ≤ most_functions) × (table_size ≤ length rows.now)
        × ((i : ℕ) → i < n → get_or rows.now (type_at i) 0 ≤ most_functions) }
    ensures { result ≡ typed_record table.now (callee_of rows.now n) r }
{
    let left = r.left;
    match r.kind {
        kinds::BINARY => ItemRecord {
            lty: cell_at(table, left.0 as usize),
            last: typed_last(table, r.last),
            ..r
        },
        kinds::UNARY => ItemRecord {
            lty: cell_at(table, left.0 as usize),
            ..r
        },
        kinds::CALL | kinds::CALL_INTO => ItemRecord {
            lty: callee_type(rows, n, left),
            ..r
        },
        _ => r,
    }
}

// The arguments of a call, from `first` on.
fn type_run(table: &[u32], arguments: &mut [u32], first: u32, count: u32)
    ensures { arguments.new ≡ typed_run table.now arguments.old first count }
{
    let start = first as usize;
    for i in start..start + count as usize {
        let at = i * VARIABLE_CELLS;
        let ty = cell_at(table, cell_at(arguments, at) as usize);
        put_cell(arguments, at + 1, ty);
    }
}

// A cell, where the slice has it. By its length: what a write through `get_mut` leaves takes a proof by hand.
fn put_cell(cells: &mut [u32], at: usize, v: u32)
    ensures { cells.new ≡ set cells.old at v }
{
    if at < cells.len() {
        cells[at] = v;
    }
}

// The arguments of the calls among `count` items from the item `first` on.
fn elaborate_calls(table: &[u32], items: &[u32], first: usize, count: usize, arguments: &mut [u32])
    requires { (first + count) * 8 ≤ length items.now }
    ensures { arguments.new
        ≡ typed_calls table.now items.now arguments.old first count }
{
    for i in first..first + count {
        type_call(table, records::record_at(items, i), arguments);
    }
}

fn type_call(table: &[u32], r: ItemRecord, arguments: &mut [u32])
    ensures { arguments.new ≡ typed_arguments table.now arguments.old r }
{
    match r.last {
        Last::Name(_, _) | Last::Labels { .. } => {}
        Last::Run { first, count } => type_run(table, arguments, first, count),
    }
}

// The types of the operands of `count` items from the item `first` on.
fn elaborate_items(
    table: &[u32],
    rows: &[u32],
    n: usize,
    items: &mut [u32],
    first: usize,
    count: usize,
)
    requires { (n ≤ most_functions) × (table_size ≤ length rows.now)
        × ((i : ℕ) → i < n → get_or rows.now (type_at i) 0 ≤ most_functions)
        × ((first + count) * 8 ≤ length items.old) }
    ensures { items.new
        ≡ typed_items table.now (callee_of rows.now n) items.old first count }
{
    for i in first..first + count {
        let r = records::record_at(items, i);
        records::put_record(items, i, typed_record(r, table, rows, n));
    }
}

// A function's items and their arguments, by the table of names that its typing left. The first two clauses say what
// becomes of any cells, the last what that is for cells that hold items.
pub fn elaborate(
    table: &[u32],
    rows: &[u32],
    n: usize,
    items: &mut [u32],
    first: usize,
    count: usize,
    arguments: &mut [u32],
)
    requires { (n ≤ most_functions) × (table_size ≤ length rows.now)
        × ((i : ℕ) → i < n → get_or rows.now (type_at i) 0 ≤ most_functions)
        × ((first + count) * 8 ≤ length items.old) }
    ensures after { items.new
        ≡ typed_items table.now (callee_of rows.now n) items.old first count }
    ensures arguments_after { arguments.new
        ≡ typed_calls table.now items.old arguments.old first count }
    ensures elaborated { Elaborated table.now (callee_of rows.now n) first count
        items.old items.new arguments.old arguments.new }
{
    elaborate_calls(table, items, first, count, arguments);
    elaborate_items(table, rows, n, items, first, count);
}
