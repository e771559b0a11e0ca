// A text's functions, parsed and typed: Unit of bril-lib/src/ir.rs, once Sema of parser.rs has passed it.
#![tactic(auto)]

pub mod types;

ghost use Rattle.std.specs.Prelude.{◌≡◌, ◌≤◌, length};
ghost use Rattle.lexer.specs.Decoded.{tokens_of};
ghost use Rattle.body.specs.Room.{Within};
ghost use Rattle.functions.specs.Answer.{LongSlices, SameSlices, held};
ghost use Rattle.functions.specs.Columns.{table_size};
ghost use Rattle.unit.specs.Outcome.{unit_d, unit_read, Counted, UnitHeld};

use functions::{Counts, UnitSlices};
use parser::Refusal;

// The functions of a text: parsed into the front of the slices, then typed. The caller clears what stands behind, and
// after a refusal all.
pub fn unit<'a>(tokens: &[u32], names: &[u32], unit: &mut UnitSlices<'a>) -> Result<Counts, Refusal>
    requires { Within (tokens_of tokens.now) 0 × (table_size ≤ length unit.old.functions.now)
        × LongSlices unit.old }
    ensures value { result ≡ unit_read (unit_d (tokens_of tokens.now)) }
    ensures unit_held { UnitHeld (tokens_of tokens.now) names.now
        (held unit.new)
        (unit_d (tokens_of tokens.now)) }
    ensures counted { Counted result }
    ensures same { SameSlices unit.old unit.new }
{
    let n = functions::parse(tokens, names, unit)?;
    let all = n.functions;
    // Fields that go into one call are lent before it, each as `&mut`: the borrow checker covers no other form.
    let rows = &mut *unit.functions;
    let items = &mut *unit.items;
    let arguments = &mut *unit.arguments;
    let blocks = &mut *unit.blocks;
    types::type_rows(tokens, rows, all, 0, all, items, arguments, blocks)?;
    Ok(n)
}
