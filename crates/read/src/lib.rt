// A text's whole answer: tokens and names as cells, or a refusal and its message.
#![tactic(auto)]

mod report;

ghost use Rattle.std.specs.Prelude.{◌≡◌, ◌≤◌, eqb, [], length};
ghost use Rattle.utils.specs.Bytes.{pick, pad_to};
ghost use Rattle.utils.specs.Limits.{message_size};
ghost use Rattle.lexer.specs.Sizes.{tokens_size, names_size};
ghost use Rattle.lexer.specs.Read.{read_from, ReadsInto, Finishes, sized, IfSized, Reads};

use lexer::sizes::{NAME_CELLS, TOKEN_CELLS};
use lexer::{ReadAnswer, sizes};
use pieces::Cursor;
use utils::{limits, numbers};

// Whether slices of these lengths have their sizes.
#[tactic(auto, unfolding(lexer::specs::Read::sized, utils::specs::Bytes::pick))]
fn fits(tokens: usize, names: usize, message: usize) -> bool
    ensures { (result ≡ sized tokens names message) × (IfSized result tokens names message) }
{
    tokens >= sizes::TOKENS && names >= sizes::NAMES && message >= limits::MESSAGE
}

// The reading of a text whose first line has this number, into the front of slices that have their sizes. Nothing is
// cleared yet.
pub fn read_into(
    text: &[u8],
    line: u32,
    tokens: &mut [u32],
    names: &mut [u32],
    message: &mut [u8],
) -> ReadAnswer
    requires { (line ≤ 2147483648) × (tokens_size ≤ length tokens.old) × (names_size ≤ length names.old)
        × (message_size ≤ length message.old) }
    ensures { ReadsInto (read_from line text.now) message.old
        result tokens.new names.new message.new }
{
    match lexing::lex_text(text, line, tokens, names) {
        Err(refusal) => {
            report::report(message, refusal);
            report::answer_of(refusal)
        }
        Ok(counts) => ReadAnswer {
            number: numbers::ACCEPTED,
            line: 0,
            place: 0,
            tokens: counts.tokens,
            names: counts.names,
        },
    }
}

// After an acceptance the message is zero; a refusal has written it.
#[tactic(auto, unfolding(utils::specs::Bytes::pick))]
pub fn finish_message(number: u32, message: &mut [u8])
    ensures { message.new
        ≡ pick (eqb number 0) (pad_to (length message.old) []) message.old }
{
    if number == numbers::ACCEPTED {
        utils::clear_bytes(message);
    }
}

// Clears what stands behind the cells that an answer counts: after a refusal, which counts none, all of them.
fn finish(r: ReadAnswer, tokens: &mut [u32], names: &mut [u32], message: &mut [u8])
    ensures { Finishes r tokens.old names.old message.old
        tokens.new names.new message.new }
{
    utils::clear_from(tokens, r.tokens as usize * TOKEN_CELLS);
    utils::clear_from(names, r.names as usize * NAME_CELLS);
    finish_message(r.number, message);
}

// The number of a text's first line.
pub const FIRST_LINE: u32 = 1;

// Document 01's reading of any text: tokens and names as cells, or a refusal and its message.
pub fn read(text: &[u8], tokens: &mut [u32], names: &mut [u32], message: &mut [u8]) -> ReadAnswer
    ensures { Reads text.now tokens.old names.old message.old
        result tokens.new names.new message.new }
{
    if fits(tokens.len(), names.len(), message.len()) {
        let r = read_into(text, FIRST_LINE, tokens, names, message);
        finish(r, tokens, names, message);
        return r;
    }
    report::refuse_at(numbers::SHORT_BUFFER, Cursor { place: 0, line: 0 })
}
