// The new function alone: parsed, held against the replaced one's header, and typed among the old headers.
#![tactic(auto)]

ghost use Rattle.std.specs.Prelude.{◌≡◌, true, ◌≤◌, length, get_or};
ghost use Rattle.lexer.specs.Decoded.{tokens_of};
ghost use Rattle.body.specs.Room.{Within};
ghost use Rattle.functions.specs.Columns.{type_at, table_size};
ghost use Rattle.functions.specs.Answer.{LongSlices, SameSlices, held};
ghost use Rattle.unit.specs.Outcome.{Counted};
ghost use Rattle.headers.specs.Table.{is_table};
ghost use Rattle.headers.specs.Spelled.{Named, callees_spelled};
ghost use Rattle.recheck.specs.Recheck.{verdict_d};
ghost use Rattle.recheck.specs.Alone.{verdict_read, VerdictHeld};

use functions::{Counts, UnitSlices, columns};
use headers::kept;
use parser::Refusal;
use recheck::alone::{parse_alone, place_alone};
use unit::types;
use utils::numbers;

// Into the front of the slices, with a table for the old headers. A refusal says nothing of the slices.
fn build<'t, 'c, 'a>(
    old: &'t [u8],
    rows: &'c [u32],
    number: usize,
    new: &'t [u8],
    tokens: &[u32],
    names: &'c [u32],
    known: u32,
    unit: &mut UnitSlices<'a>,
    local: &mut [u32],
) -> Result<Counts, Refusal>
    requires { (is_table old.now rows.now number ≡ true) × Named new.now names.now known
        × Within (tokens_of tokens.now) 0 × (table_size ≤ length unit.old.functions.now)
        × LongSlices unit.old × (table_size ≤ length local.old) }
    ensures value { result ≡ verdict_read (verdict_d old.now rows.now number new.now
        names.now (tokens_of tokens.now)) }
    ensures verdict_held { VerdictHeld (tokens_of tokens.now) names.now
        (callees_spelled old.now rows.now new.now names.now)
        (get_or rows.now (type_at number) 0)
        (held unit.new)
        (verdict_d old.now rows.now number new.now names.now
        (tokens_of tokens.now)) }
    ensures counted { Counted result }
    ensures same { SameSlices unit.old unit.new }
{
    if !kept::keeps(old, new, rows, names, number, tokens, local) {
        return Err(parser::refuse(numbers::HEADER_CHANGED, 0));
    }
    let n = parse_alone(tokens, names, unit)?;
    let at = place_alone(unit.functions, old, rows, number, new, names, known, local);
    // Lent before the call, each as `&mut`: the borrow checker covers no other form.
    let items = &mut *unit.items;
    let arguments = &mut *unit.arguments;
    let blocks = &mut *unit.blocks;
    types::type_rows(
        tokens, local, at.count, at.place, 1, items, arguments, blocks,
    )?;
    Ok(n)
}

// With room for the old headers.
pub fn unit<'t, 'c, 'a>(
    old: &'t [u8],
    rows: &'c [u32],
    number: usize,
    new: &'t [u8],
    tokens: &[u32],
    names: &'c [u32],
    known: u32,
    unit: &mut UnitSlices<'a>,
) -> Result<Counts, Refusal>
    requires { (is_table old.now rows.now number ≡ true) × Named new.now names.now known
        × Within (tokens_of tokens.now) 0 × (table_size ≤ length unit.old.functions.now)
        × LongSlices unit.old }
    ensures value { result ≡ verdict_read (verdict_d old.now rows.now number new.now
        names.now (tokens_of tokens.now)) }
    ensures verdict_held { VerdictHeld (tokens_of tokens.now) names.now
        (callees_spelled old.now rows.now new.now names.now)
        (get_or rows.now (type_at number) 0)
        (held unit.new)
        (verdict_d old.now rows.now number new.now names.now
        (tokens_of tokens.now)) }
    ensures counted { Counted result }
    ensures same { SameSlices unit.old unit.new }
{
    let mut local = [0u32; columns::TABLE];
    build(
        old, rows, number, new, tokens, names, known, unit, &mut local,
    )
}
