// 42: whether a header table is one that check may have written, with its text.
ghost use Rattle.std.specs.Prelude.{◌≡◌, ◌≤◌};
ghost use Rattle.utils.specs.Limits.{most_functions, most_formals};
ghost use Rattle.headers.specs.Table.{between, formals_fit, name_fits, type_fits, row_fits, rows_fit, is_table};

use functions::columns;
use parser::{VARIABLE_CELLS, types};
use utils::{cell_at, limits};

// Whether a cell is at least the one and at most the other.
#[tactic(auto, unfolding(crate::specs::Table::between, utils::specs::Bytes::pick))]
fn is_between(least: u32, most: u32, x: u32) -> bool
    ensures { result ≡ between least most x }
{
    least <= x && x <= most
}

// Whether each of the n formals of row i has a type.
fn formals_fit(rows: &[u32], i: usize, n: u32) -> bool
    requires { (i ≤ most_functions) × (n ≤ most_formals) }
    ensures { result ≡ formals_fit rows.now i 0 n }
{
    for k in 0..n as usize {
        let at = columns::FORMAL_TYPE + i * columns::ROW + k * VARIABLE_CELLS;
        if !is_between(types::INT, types::BOOL, cell_at(rows, at)) {
            return false;
        }
    }
    true
}

#[tactic(auto, unfolding(crate::specs::Table::name_fits, utils::specs::Bytes::pick))]
fn name_fits(old: &[u8], rows: &[u32], i: usize) -> bool
    requires { i ≤ most_functions }
    ensures { result ≡ name_fits old.now rows.now i }
{
    let place = cell_at(rows, columns::PLACE + i * columns::ROW);
    let len = cell_at(rows, columns::LENGTH + i * columns::ROW);
    let line = cell_at(rows, columns::LINE + i * columns::ROW);
    place <= limits::MOST_BYTES
        && is_between(2, limits::MOST_NAME_BYTES, len)
        && place as usize + len as usize <= old.len()
        && is_between(1, limits::MOST_LINES, line)
}

#[tactic(auto, unfolding(crate::specs::Table::type_fits, utils::specs::Bytes::pick))]
fn type_fits(rows: &[u32], i: usize) -> bool
    requires { i ≤ most_functions }
    ensures { result ≡ type_fits rows.now i }
{
    let result = cell_at(rows, columns::RESULT + i * columns::ROW);
    let number = cell_at(rows, columns::TYPE + i * columns::ROW);
    let blocks = cell_at(rows, columns::BLOCKS + i * columns::ROW);
    is_between(types::INT, types::VOID, result)
        && number < limits::MOST_FUNCTIONS
        && is_between(1, limits::MOST_BLOCKS, blocks)
}

#[tactic(auto, unfolding(crate::specs::Table::row_fits, utils::specs::Bytes::pick))]
fn row_fits(old: &[u8], rows: &[u32], i: usize) -> bool
    requires { i ≤ most_functions }
    ensures { result ≡ row_fits old.now rows.now i }
{
    let formals = cell_at(rows, columns::COUNT + i * columns::ROW);
    name_fits(old, rows, i)
        && type_fits(rows, i)
        && formals <= limits::MOST_FORMALS
        && formals_fit(rows, i, formals)
}

// Whether each of n rows fits.
fn rows_fit(old: &[u8], rows: &[u32], n: u32) -> bool
    requires { n ≤ most_functions }
    ensures { result ≡ rows_fit old.now rows.now 0 n }
{
    for i in 0..n as usize {
        if !row_fits(old, rows, i) {
            return false;
        }
    }
    true
}

// Whether it is a table with its text, and has a function of this number.
#[tactic(auto, unfolding(crate::specs::Table::is_table, utils::specs::Bytes::pick))]
pub fn is_table(old: &[u8], table: &[u32], number: u32) -> bool
    ensures { result ≡ is_table old.now table.now number }
{
    let count = cell_at(table, 0);
    old.len() <= limits::BYTES
        && columns::TABLE <= table.len()
        && number < count
        && count <= limits::MOST_FUNCTIONS
        && rows_fit(old, table, count)
}
