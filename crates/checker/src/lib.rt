// Any text to typed functions with blocks and edges, or one refusal.
#![tactic(auto)]

ghost use Rattle.std.specs.Prelude.{◌≡◌, ◌*◌, ◌≤◌, length, take};
ghost use Rattle.utils.specs.Bytes.{pad_to};
ghost use Rattle.lexer.specs.Decoded.{tokens_of};
ghost use Rattle.functions.specs.Answer.{SameSlices, held, slices};
ghost use Rattle.messages.specs.Messages.{ShortNames};
ghost use Rattle.utils.specs.Limits.{message_size};
ghost use Rattle.checker.specs.Check.{accepted, check_refusal, refused_at, check_of};
ghost use Rattle.checker.specs.Promise.{Lexed, Sizes, ChecksInto, rows_used, Finishes};
ghost use Rattle.checker.specs.Promise.{sized, sized_unit, IfSized, IfSizedUnit, Checks};

use body::ITEM_CELLS;
use functions::{Counts, UnitSlices, columns, sizes};
use graph::BLOCK_CELLS;
use lexer::ReadAnswer;
use lexer::sizes::{NAME_CELLS, TOKEN_CELLS};
use parser::{Refusal, VARIABLE_CELLS};
use pieces::Location;
use utils::{clear_from, limits, numbers};

// What `check` answers: document 01's number, line and place, and how many records each slice has.
#[repr(C)]
#[derive(Clone, Copy)]
pub struct CheckAnswer {
    pub number: u32,
    pub line: u32,
    pub place: u32,
    pub tokens: u32,
    pub names: u32,
    pub functions: u32,
    pub items: u32,
    pub arguments: u32,
    pub blocks: u32,
    pub predecessors: u32,
}

// A refusal's answer.
pub fn refused(number: u32, line: Location, place: u32) -> CheckAnswer
    ensures { result ≡ check_refusal number line.0 place }
{
    CheckAnswer {
        number,
        line: line.0,
        place,
        tokens: 0,
        names: 0,
        functions: 0,
        items: 0,
        arguments: 0,
        blocks: 0,
        predecessors: 0,
    }
}

// An acceptance's answer.
pub fn counted(tokens: u32, names: u32, n: Counts) -> CheckAnswer
    requires { (n.functions ≤ 4096) × (n.items ≤ 4096) × (n.arguments ≤ 4096) × (n.blocks ≤ 4096)
        × (n.predecessors ≤ 4096) }
    ensures { result ≡ accepted tokens names n }
{
    CheckAnswer {
        number: numbers::ACCEPTED,
        line: 0,
        place: 0,
        tokens,
        names,
        functions: n.functions as u32,
        items: n.items as u32,
        arguments: n.arguments as u32,
        blocks: n.blocks as u32,
        predecessors: n.predecessors as u32,
    }
}

// A refusal at a token of a text that is read: its message and its answer.
pub fn refuse(
    text: &[u8],
    r: ReadAnswer,
    tokens: &[u32],
    names: &[u32],
    message: &mut [u8],
    e: Refusal,
) -> CheckAnswer
    requires { (r.tokens * 4 ≤ length tokens.now) × (r.names * 2 ≤ length names.now)
        × (message_size ≤ length message.old) × ShortNames text.now (take (r.names * 2) names.now) }
    ensures { (result ≡ (refused_at text.now (take (r.names * 2) names.now)
        (tokens_of (take (r.tokens * 4) tokens.now)) e).answer)
        × (message.new ≡ pad_to (length message.old)
        (refused_at text.now (take (r.names * 2) names.now)
        (tokens_of (take (r.tokens * 4) tokens.now)) e).message) }
{
    let last = r.tokens as usize * TOKEN_CELLS;
    let end = r.names as usize * NAME_CELLS;
    messages::put_message(text, &tokens[0..last], &names[0..end], e, message);
    let t = lexer::token_at(&tokens[0..last], e.token);
    refused(e.number, t.line, t.place)
}

// The functions of a text that is read, into the front of slices that have their sizes.
fn check_lexed<'a>(
    text: &[u8],
    r: ReadAnswer,
    tokens: &[u32],
    names: &[u32],
    unit: &mut UnitSlices<'a>,
    message: &mut [u8],
) -> CheckAnswer
    requires { Lexed 1 text.now r tokens.now names.now
        × Sizes message.old tokens.now names.now
        (held unit.old) }
    ensures checks { ChecksInto (check_of text.now) message.old result message.new
        tokens.now names.now
        (held unit.new) }
    ensures same { SameSlices unit.old unit.new }
{
    let last = r.tokens as usize * TOKEN_CELLS;
    let end = r.names as usize * NAME_CELLS;
    match unit::unit(&tokens[0..last], &names[0..end], unit) {
        Err(e) => refuse(text, r, tokens, names, message, e),
        Ok(n) => counted(r.tokens, r.names, n),
    }
}

// The check of a text, into the front of slices that have their sizes. Nothing is cleared yet.
pub fn check_into<'a>(
    text: &[u8],
    tokens: &mut [u32],
    names: &mut [u32],
    unit: &mut UnitSlices<'a>,
    message: &mut [u8],
) -> CheckAnswer
    requires { Sizes message.old tokens.old names.old
        (held unit.old) }
    ensures checks { ChecksInto (check_of text.now) message.old result message.new
        tokens.new names.new
        (held unit.new) }
    ensures same { SameSlices unit.old unit.new }
{
    let r = read::read_into(text, read::FIRST_LINE, tokens, names, message);
    if r.number == numbers::ACCEPTED {
        return check_lexed(text, r, tokens, names, unit, message);
    }
    refused(r.number, Location(r.line), r.place)
}

// How many cells of the header table an answer counts.
#[tactic(auto, unfolding(utils::specs::Bytes::pick))]
pub fn rows_used(r: CheckAnswer) -> usize
    ensures { result ≡ rows_used r }
{
    if r.number == numbers::ACCEPTED {
        return columns::TOKEN + r.functions as usize * columns::ROW;
    }
    0
}

// Clears what stands behind the cells that an answer counts: after a refusal, which counts none, all of them.
pub fn finish<'a>(
    r: CheckAnswer,
    tokens: &mut [u32],
    names: &mut [u32],
    unit: &mut UnitSlices<'a>,
    message: &mut [u8],
)
    ensures finishes { Finishes r message.old tokens.old names.old
        (held unit.old)
        message.new tokens.new names.new
        (held unit.new) }
    ensures same { SameSlices unit.old unit.new }
{
    clear_from(tokens, r.tokens as usize * TOKEN_CELLS);
    clear_from(names, r.names as usize * NAME_CELLS);
    clear_from(unit.functions, rows_used(r));
    clear_from(unit.items, r.items as usize * ITEM_CELLS);
    clear_from(unit.arguments, r.arguments as usize * VARIABLE_CELLS);
    clear_from(unit.blocks, r.blocks as usize * BLOCK_CELLS);
    clear_from(unit.predecessors, r.predecessors as usize);
    read::finish_message(r.number, message);
}

// Whether slices of these lengths, for functions, items, arguments, blocks and predecessors, have their sizes.
#[tactic(auto, unfolding(crate::specs::Promise::sized_unit, utils::specs::Bytes::pick))]
pub fn fits_unit(f: usize, i: usize, a: usize, b: usize, p: usize) -> bool
    ensures { (result ≡ sized_unit f i a b p) × (IfSizedUnit result f i a b p) }
{
    columns::TABLE <= f
        && sizes::ITEMS <= i
        && sizes::ARGUMENTS <= a
        && sizes::BLOCKS <= b
        && sizes::PREDECESSORS <= p
}

// Whether slices of these lengths have their sizes; `unit`: whether the other five have theirs.
#[tactic(auto, unfolding(crate::specs::Promise::sized, utils::specs::Bytes::pick))]
pub fn fits(m: usize, t: usize, n: usize, unit: bool) -> bool
    ensures { (result ≡ sized m t n unit) × (IfSized result unit m t n) }
{
    lexer::sizes::TOKENS <= t && lexer::sizes::NAMES <= n && limits::MESSAGE <= m && unit
}

// Document 01's check of any text: typed functions with blocks and edges as cells, or a refusal and its message.
pub fn check(
    text: &[u8],
    tokens: &mut [u32],
    names: &mut [u32],
    functions: &mut [u32],
    items: &mut [u32],
    arguments: &mut [u32],
    blocks: &mut [u32],
    predecessors: &mut [u32],
    message: &mut [u8],
) -> CheckAnswer
    ensures { Checks text.now message.old tokens.old names.old
        (slices functions.old items.old arguments.old blocks.old
        predecessors.old)
        result message.new tokens.new names.new
        (slices functions.new items.new arguments.new blocks.new
        predecessors.new) }
{
    let unit = fits_unit(
        functions.len(),
        items.len(),
        arguments.len(),
        blocks.len(),
        predecessors.len(),
    );
    if fits(message.len(), tokens.len(), names.len(), unit) {
        let mut lent = UnitSlices {
            functions,
            items,
            arguments,
            blocks,
            predecessors,
        };
        let r = check_into(text, tokens, names, &mut lent, message);
        finish(r, tokens, names, &mut lent, message);
        return r;
    }
    refused(numbers::SHORT_BUFFER, Location(0), 0)
}
