// One new function against the headers of an accepted text.
#![tactic(auto)]

ghost use Rattle.std.specs.Prelude.{◌≡◌, true, ◌≤◌, length, get_or};
ghost use Rattle.utils.specs.Bytes.{pad_to};
ghost use Rattle.lexer.specs.Decoded.{tokens_of};
ghost use Rattle.lexer.specs.Read.{read_from};
ghost use Rattle.functions.specs.Answer.{SameSlices, held, slices};
ghost use Rattle.functions.specs.Columns.{line_at};
ghost use Rattle.checker.specs.Promise.{Lexed, Sizes, ChecksInto};
ghost use Rattle.headers.specs.Kept.{is_whole};
ghost use Rattle.headers.specs.Table.{is_table};
ghost use Rattle.utils.specs.Limits.{message_size};
ghost use Rattle.recheck.specs.Recheck.{refused_with, recheck_of};
ghost use Rattle.recheck.specs.Promise.{Rechecks};

use checker::CheckAnswer;
use functions::{UnitSlices, columns};
use headers::{kept, table};
use lexer::ReadAnswer;
use lexer::sizes::{NAME_CELLS, TOKEN_CELLS};
use pieces::Location;
use utils::{cell_at, numbers};

// A refusal at no token: its message and its answer.
fn refuse_plain(number: u32, line: Location, message: &mut [u8]) -> CheckAnswer
    requires { message_size ≤ length message.old }
    ensures { (result ≡ (refused_with number line.0 0).answer)
        × (message.new ≡ pad_to (length message.old) (refused_with number line.0 0).message) }
{
    messages::report(message, line, number);
    checker::refused(number, line, 0)
}

// A new text that is read and begins and ends as one function, into the front of slices that have their sizes.
fn recheck_whole<'t, 'c, 'a>(
    old: &'t [u8],
    table: &'c [u32],
    number: u32,
    new: &'t [u8],
    r: ReadAnswer,
    tokens: &[u32],
    names: &'c [u32],
    unit: &mut UnitSlices<'a>,
    message: &mut [u8],
) -> CheckAnswer
    requires { (is_table old.now table.now number ≡ true)
        × Lexed (get_or table.now (line_at number) 0) new.now r tokens.now names.now
        × (is_whole new.now (tokens_of (read_from (get_or table.now (line_at number) 0) new.now).tokens) ≡ true)
        × Sizes message.old tokens.now names.now
        (held unit.old) }
    ensures checks { ChecksInto (recheck_of old.now table.now number new.now)
        message.old result message.new tokens.now names.now
        (held unit.new) }
    ensures same { SameSlices unit.old unit.new }
{
    let last = r.tokens as usize * TOKEN_CELLS;
    let end = r.names as usize * NAME_CELLS;
    match alone::unit(
        old,
        table,
        number as usize,
        new,
        &tokens[0..last],
        &names[0..end],
        r.names,
        unit,
    ) {
        Err(e) => checker::refuse(new, r, tokens, names, message, e),
        Ok(n) => checker::counted(r.tokens, r.names, n),
    }
}

// A new text that is read, into the front of slices that have their sizes.
fn recheck_lexed<'t, 'c, 'a>(
    old: &'t [u8],
    table: &'c [u32],
    number: u32,
    new: &'t [u8],
    r: ReadAnswer,
    tokens: &[u32],
    names: &'c [u32],
    unit: &mut UnitSlices<'a>,
    message: &mut [u8],
) -> CheckAnswer
    requires { (is_table old.now table.now number ≡ true)
        × Lexed (get_or table.now (line_at number) 0) new.now r tokens.now names.now
        × Sizes message.old tokens.now names.now
        (held unit.old) }
    ensures checks { ChecksInto (recheck_of old.now table.now number new.now)
        message.old result message.new tokens.now names.now
        (held unit.new) }
    ensures same { SameSlices unit.old unit.new }
{
    let last = r.tokens as usize * TOKEN_CELLS;
    if kept::is_whole(new, &tokens[0..last]) {
        return recheck_whole(old, table, number, new, r, tokens, names, unit, message);
    }
    let line = Location(cell_at(table, columns::LINE + number as usize * columns::ROW));
    refuse_plain(numbers::NOT_ONE_FUNCTION, line, message)
}

// The recheck of a new text, into the front of slices that have their sizes. Nothing is cleared yet.
pub fn recheck_into<'t, 'a>(
    old: &'t [u8],
    table: &[u32],
    number: u32,
    new: &'t [u8],
    tokens: &mut [u32],
    names: &mut [u32],
    unit: &mut UnitSlices<'a>,
    message: &mut [u8],
) -> CheckAnswer
    requires { Sizes message.old tokens.old names.old
        (held unit.old) }
    ensures checks { ChecksInto (recheck_of old.now table.now number new.now)
        message.old result message.new tokens.new names.new
        (held unit.new) }
    ensures same { SameSlices unit.old unit.new }
{
    if !table::is_table(old, table, number) {
        return refuse_plain(numbers::BAD_TABLE, Location(0), message);
    }
    let line = cell_at(table, columns::LINE + number as usize * columns::ROW);
    let r = read::read_into(new, line, tokens, names, message);
    if r.number == numbers::ACCEPTED {
        return recheck_lexed(old, table, number, new, r, tokens, names, unit, message);
    }
    checker::refused(r.number, Location(r.line), r.place)
}

// Document 01's recheck: one new function against the headers of an accepted text, as cells, or a refusal and its
// message.
pub fn recheck<'t>(
    old: &'t [u8],
    table: &[u32],
    number: u32,
    new: &'t [u8],
    tokens: &mut [u32],
    names: &mut [u32],
    functions: &mut [u32],
    items: &mut [u32],
    arguments: &mut [u32],
    blocks: &mut [u32],
    predecessors: &mut [u32],
    message: &mut [u8],
) -> CheckAnswer
    ensures { Rechecks old.now table.now number new.now
        message.old tokens.old names.old
        (slices functions.old items.old arguments.old blocks.old
        predecessors.old)
        result message.new tokens.new names.new
        (slices functions.new items.new arguments.new blocks.new
        predecessors.new) }
{
    let unit = checker::fits_unit(
        functions.len(),
        items.len(),
        arguments.len(),
        blocks.len(),
        predecessors.len(),
    );
    if checker::fits(message.len(), tokens.len(), names.len(), unit) {
        let mut lent = UnitSlices {
            functions,
            items,
            arguments,
            blocks,
            predecessors,
        };
        let r = recheck_into(old, table, number, new, tokens, names, &mut lent, message);
        checker::finish(r, tokens, names, &mut lent, message);
        return r;
    }
    checker::refused(numbers::SHORT_BUFFER, Location(0), 0)
}
