// The C functions. Cells go out as little-endian bytes at the offsets of docs/INTERFACE.md.
#![tactic(auto)]

mod lent;
mod rechecks;

ghost use Rattle.std.specs.Prelude.{◌≡◌};
ghost use Rattle.lexer.specs.Read.{read_refusal};
ghost use Rattle.checker.specs.Check.{check_refusal};
ghost use Rattle.exports.specs.Bytes.{Exports};
ghost use Rattle.exports.specs.CheckBytes as checks;
ghost use Rattle.pitchsleet.specs.RecheckBytes as again;

use checker::CheckAnswer;
use exports::{check, layout, read_out};
use functions::{UnitSlices, columns, sizes};
use lexer::ReadAnswer;
use pieces::Location;
use utils::{limits, numbers};

// A lent slice is shorter than its size.
fn short() -> ReadAnswer
    ensures { result ≡ read_refusal 30 0 0 }
{
    ReadAnswer {
        number: numbers::SHORT_BUFFER,
        line: 0,
        place: 0,
        tokens: 0,
        names: 0,
    }
}

fn short_check() -> CheckAnswer
    ensures { result ≡ check_refusal 30 0 0 }
{
    checker::refused(numbers::SHORT_BUFFER, Location(0), 0)
}

// Document 01's reading for a C or Rust host. The gate stands before anything is written, on both slices.
#[unsafe(no_mangle)]
#[tactic(auto, unfolding(exports::specs::Bytes::export_def, utils::specs::Bytes::pick), using(exports::proofs::Cells::by_parts))]
pub extern "C" fn pitchsleet_read(text: &[u8], out: &mut [u8], message: &mut [u8]) -> ReadAnswer
    ensures { Exports text.now out.old message.old
        result out.new message.new }
{
    if out.len() < layout::READ || message.len() < limits::MESSAGE {
        return short();
    }
    let mut tokens = [0u32; lexer::sizes::TOKENS];
    let mut names = [0u32; lexer::sizes::NAMES];
    read_out(text, &mut tokens, &mut names, out, message)
}

// Document 01's check for a C or Rust host. The gate stands before anything is written, on both slices.
#[unsafe(no_mangle)]
#[tactic(auto, unfolding(exports::specs::CheckBytes::export_def, utils::specs::Bytes::pick), using(exports::proofs::Checks::by_parts))]
pub extern "C" fn pitchsleet_check(text: &[u8], out: &mut [u8], message: &mut [u8]) -> CheckAnswer
    ensures { checks.Exports text.now out.old message.old
        result out.new message.new }
{
    if out.len() < layout::CHECKED || message.len() < limits::MESSAGE {
        return short_check();
    }
    let mut tokens = [0u32; lexer::sizes::TOKENS];
    let mut names = [0u32; lexer::sizes::NAMES];
    let mut functions = [0u32; columns::TABLE];
    let mut items = [0u32; sizes::ITEMS];
    let mut arguments = [0u32; sizes::ARGUMENTS];
    let mut blocks = [0u32; sizes::BLOCKS];
    let mut predecessors = [0u32; sizes::PREDECESSORS];
    let mut unit = UnitSlices {
        functions: &mut functions,
        items: &mut items,
        arguments: &mut arguments,
        blocks: &mut blocks,
        predecessors: &mut predecessors,
    };
    check::check_out(text, &mut tokens, &mut names, &mut unit, out, message)
}

// Document 01's recheck for a C or Rust host: `table` are the bytes that `pitchsleet_check` wrote for the old text's
// header table. The gate stands before anything is written, on both slices.
#[unsafe(no_mangle)]
#[tactic(auto, unfolding(crate::specs::RecheckBytes::recheck_def, utils::specs::Bytes::pick), using(exports::proofs::Checks::by_parts))]
pub extern "C" fn pitchsleet_recheck<'t>(
    old: &'t [u8],
    table: &[u8],
    number: u32,
    new: &'t [u8],
    out: &mut [u8],
    message: &mut [u8],
) -> CheckAnswer
    ensures { again.Rechecks old.now table.now number new.now
        out.old message.old result out.new message.new }
{
    if out.len() < layout::CHECKED || message.len() < limits::MESSAGE {
        return short_check();
    }
    rechecks::recheck_out(old, table, number, new, out, message)
}
