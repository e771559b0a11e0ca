// The old headers in the new text's numbers.
ghost use Rattle.std.specs.Prelude.{◌≡◌, ◌+◌, ◌≤◌, ◌<◌, length, get_or};
ghost use Rattle.std.proofs.lemmas.List.Edits.{sets};
ghost use Rattle.functions.specs.Columns.{row_at, row_width, table_size};
ghost use Rattle.utils.specs.Limits.{most_functions};
ghost use Rattle.headers.specs.Spelled.{row_name, name_spelled};
ghost use Rattle.headers.specs.Brought.{cells_from, row_put, brought, brought_as, brought_from, Brings};

use crate::{Placed, names};
use functions::columns;
use pieces::Identifier;
use utils::cell_at;

// Row n as row i of the old table.
pub fn copy_row(out: &mut [u32], n: usize, rows: &[u32], i: usize)
    requires { (n < most_functions) × (i < most_functions) × (table_size ≤ length out.old) }
    ensures { out.new
        ≡ sets out.old (row_at n) (cells_from rows.now (row_at i) row_width) }
{
    let to = columns::TOKEN + n * columns::ROW;
    let from = columns::TOKEN + i * columns::ROW;
    for k in 0..columns::ROW {
        out[to + k] = cell_at(rows, from + k);
    }
}

// Row n as row i of the old table, but with the name x.
fn put_row(out: &mut [u32], n: usize, rows: &[u32], i: usize, x: Identifier)
    requires { (n < most_functions) × (i < most_functions) × (table_size ≤ length out.old) }
    ensures { out.new ≡ row_put out.old n rows.now i x.0 }
{
    copy_row(out, n, rows, i);
    let at = columns::NAME + n * columns::ROW;
    out[at] = x.0;
}

// Brings row i to row n, if the new text has its name; how many rows there are then.
fn bring_row<'t, 'c>(
    out: &mut [u32],
    n: usize,
    old: &'t [u8],
    rows: &'c [u32],
    i: usize,
    new: &'t [u8],
    names: &'c [u32],
    known: u32,
) -> usize
    requires { (n < most_functions) × (i < most_functions) × (table_size ≤ length out.old) }
    ensures result_after { brought out.new result
        ≡ brought_as (brought out.old n) rows.now i
        (name_spelled new.now names.now 0 known
        (row_name old.now rows.now i)) }
    ensures lower_bound { (n ≤ result) × (result ≤ n + 1) }
{
    match names::find_name(old, rows, i, new, names, known) {
        Some(x) => {
            put_row(out, n, rows, i, x);
            n + 1
        }
        None => n,
    }
}

// Brings `left` rows from row i on, to row n and behind it; how many rows there are then.
fn bring_rows<'t, 'c>(
    out: &mut [u32],
    n: usize,
    old: &'t [u8],
    rows: &'c [u32],
    i: usize,
    left: usize,
    new: &'t [u8],
    names: &'c [u32],
    known: u32,
) -> usize
    requires { (n ≤ i) × (i + left ≤ most_functions) × (table_size ≤ length out.old) }
    ensures result_after { brought out.new result
        ≡ brought_from old.now rows.now new.now names.now known i left
        (brought out.old n) }
    ensures lower_bound { (n ≤ result) × (result ≤ n + left) }
{
    let mut at = n;
    for from in i..i + left {
        at = bring_row(out, at, old, rows, from, new, names, known);
    }
    at
}

// Brings the whole table, and says where the row of this number went.
pub fn bring<'t, 'c>(
    out: &mut [u32],
    old: &'t [u8],
    rows: &'c [u32],
    number: usize,
    new: &'t [u8],
    names: &'c [u32],
    known: u32,
) -> Placed
    requires { (number < get_or rows.now 0 0) × (get_or rows.now 0 0 ≤ most_functions)
        × (table_size ≤ length out.old) }
    ensures { Brings old.now rows.now new.now names.now known number
        out.old result out.new }
{
    let count = cell_at(rows, 0) as usize;
    let place = bring_rows(out, 0, old, rows, 0, number, new, names, known);
    let all = bring_rows(
        out,
        place,
        old,
        rows,
        number,
        count - number,
        new,
        names,
        known,
    );
    Placed { place, count: all }
}
