// The functions so far: the Rust's Unit::globals and Unit::function_types, looked up in the rows of the header table.
ghost use Rattle.std.specs.Prelude.{◌≡◌, ◌∷◌, ◌≤◌, ◌<◌, length, get_or};
ghost use Rattle.utils.specs.Bytes.{same_bytes};
ghost use Rattle.utils.specs.Limits.{most_functions, most_formals};
ghost use Rattle.functions.specs.Known.{type_number, expected_type};
ghost use Rattle.functions.specs.Columns.{type_at, formals_at, IsRow, HasRows, table_size};
ghost use Rattle.functions.specs.Rows.{types_at, signed_at, known_from, row_from, FoundIn};

use crate::columns;
use parser::VARIABLE_CELLS;
use pieces::Identifier;

// Whether the first `count` formals of rows a and b have the same types.
fn same_formals(rows: &[u32], a: usize, b: usize, count: usize) -> bool
    requires { (a < most_functions) × (b < most_functions) × (count ≤ most_formals) × (table_size ≤ length rows.now) }
    ensures { result ≡ same_bytes (types_at rows.now (formals_at a) count)
        (types_at rows.now (formals_at b) count) }
{
    for k in 0..count {
        let i = columns::FORMAL_TYPE + a * columns::ROW + k * VARIABLE_CELLS;
        let j = columns::FORMAL_TYPE + b * columns::ROW + k * VARIABLE_CELLS;
        if rows[i] != rows[j] {
            return false;
        }
    }
    true
}

// Whether row a has the function type of a function with this result and `count` formals, which stand in row b.
#[tactic(auto, unfolding(utils::specs::Bytes::same_bytes, utils::specs::Bytes::pick))]
pub fn same_type(rows: &[u32], a: usize, ret: u32, count: usize, b: usize) -> bool
    requires { (a < most_functions) × (b < most_functions) × (count ≤ most_formals) × (table_size ≤ length rows.now) }
    ensures { result ≡ same_bytes (signed_at rows.now a)
        (ret ∷ count ∷ types_at rows.now (formals_at b) count) }
{
    rows[columns::RESULT + a * columns::ROW] == ret
        && rows[columns::COUNT + a * columns::ROW] == count as u32
        && same_formals(rows, a, b, count)
}

// The number of the function type of row n, whose result and formals are read: Unit::add_function_type.
pub fn type_number(rows: &[u32], n: usize, ret: u32, count: usize, types: u32) -> u32
    requires { (n < most_functions) × (count ≤ most_formals) × (table_size ≤ length rows.now) }
    ensures { result ≡ type_number (known_from rows.now 0 n)
        (ret ∷ count ∷ types_at rows.now (formals_at n) count) types }
{
    for i in 0..n {
        if same_type(rows, i, ret, count, n) {
            return rows[columns::TYPE + i * columns::ROW];
        }
    }
    types
}

// The first function of this name among n.
pub fn find_function(rows: &[u32], n: usize, name: Identifier) -> Option<usize>
    requires { HasRows rows.now n }
    ensures value { result ≡ row_from rows.now 0 n name.0 }
    ensures found_in { FoundIn rows.now n result }
{
    for i in 0..n {
        if rows[columns::NAME + i * columns::ROW] == name.0 {
            return Some(i);
        }
    }
    None
}

// The number of the function type of row i.
pub fn function_type(rows: &[u32], i: usize) -> u32
    requires { IsRow rows.now i }
    ensures { result ≡ get_or rows.now (type_at i) 0 }
{
    rows[columns::TYPE + i * columns::ROW]
}

// The type that this name has among the first n functions, or the given one.
pub fn expected_type(rows: &[u32], n: usize, name: Identifier, ty: u32) -> u32
    requires { HasRows rows.now n }
    ensures { result ≡ expected_type (known_from rows.now 0 n) name.0 ty }
{
    match find_function(rows, n, name) {
        Some(i) => function_type(rows, i),
        None => ty,
    }
}
