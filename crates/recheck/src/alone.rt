// The new function alone: parsed by the code that check uses, and put among the old headers.
ghost use Rattle.std.specs.Prelude.{◌≡◌, ◌≤◌, ◌<◌, length, get_or};
ghost use Rattle.lexer.specs.Decoded.{tokens_of};
ghost use Rattle.body.specs.Room.{Within};
ghost use Rattle.functions.specs.Columns.{table_size};
ghost use Rattle.functions.specs.Answer.{LongSlices, SameSlices, held, FunctionHeld};
ghost use Rattle.unit.specs.Outcome.{none};
ghost use Rattle.utils.specs.Limits.{most_functions};
ghost use Rattle.recheck.specs.Recheck.{alone_d};
ghost use Rattle.recheck.specs.Alone.{alone_read, Places};

use functions::{Counts, UnitSlices, columns};
use headers::{Placed, bring};
use parser::Refusal;
use pieces::kinds;
use utils::{cell_at, numbers};

// One function from the first token on, and nothing behind it.
pub fn parse_alone<'a>(
    tokens: &[u32],
    names: &[u32],
    unit: &mut UnitSlices<'a>,
) -> Result<Counts, Refusal>
    requires { Within (tokens_of tokens.now) 0 × (table_size ≤ length unit.old.functions.now)
        × LongSlices unit.old }
    ensures value { result ≡ alone_read (alone_d (tokens_of tokens.now)) }
    ensures function_held { FunctionHeld (tokens_of tokens.now) names.now none
        (held unit.old)
        (held unit.new)
        (alone_d (tokens_of tokens.now)) }
    ensures same { SameSlices unit.old unit.new }
{
    let none = Counts {
        functions: 0,
        items: 0,
        arguments: 0,
        blocks: 0,
        predecessors: 0,
    };
    let read = functions::parse_function(tokens, names, 0, 0, none, unit)?;
    let next = read.next;
    match lexer::token_at(tokens, next).kind {
        kinds::END_OF_FILE => Ok(read.counts),
        kinds::GLOBAL => Err(parser::refuse(numbers::NOT_ONE_FUNCTION, next)),
        _ => Err(parser::refuse(numbers::NO_GLOBAL, next)),
    }
}

// Gives the new function's row, the first of `functions`, the function type's number of the replaced row; and puts it
// in that row's place among the old headers.
pub fn place_alone<'t, 'c>(
    functions: &mut [u32],
    old: &'t [u8],
    rows: &'c [u32],
    number: usize,
    new: &'t [u8],
    names: &'c [u32],
    known: u32,
    local: &mut [u32],
) -> Placed
    requires { (number < get_or rows.now 0 0) × (get_or rows.now 0 0 ≤ most_functions)
        × (table_size ≤ length functions.old)
        × (table_size ≤ length local.old) }
    ensures { Places old.now rows.now new.now names.now known number
        local.old functions.old result local.new functions.new }
{
    functions[0] = 1;
    functions[columns::TYPE] = cell_at(rows, columns::TYPE + number * columns::ROW);
    let placed = bring::bring(local, old, rows, number, new, names, known);
    bring::copy_row(local, placed.place, functions, 0);
    placed
}
