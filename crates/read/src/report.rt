// A refusal's number, line and place, and its message.
ghost use Rattle.std.specs.Prelude.{◌≡◌, ◌≤◌, ◌<◌, length, []};
ghost use Rattle.utils.specs.Bytes.{pad_to};
ghost use Rattle.utils.specs.Message.{reported};
ghost use Rattle.pieces.specs.Refusals.{facts_of, message_of, unexpected};
ghost use Rattle.utils.specs.Limits.{message_size};
ghost use Rattle.lexer.specs.Read.{read_refusal, answer_of};

use lexer::ReadAnswer;
use pieces::{Cursor, Refusal};
use utils::numbers;

pub(crate) fn refuse_at(number: u32, at: Cursor) -> ReadAnswer
    requires { at.place < 4294967296 }
    ensures { result ≡ read_refusal number at.line at.place }
{
    ReadAnswer {
        number,
        line: at.line,
        place: at.place as u32,
        tokens: 0,
        names: 0,
    }
}

pub(crate) fn answer_of(refusal: Refusal) -> ReadAnswer
    requires { (facts_of refusal).place < 4294967296 }
    ensures { result ≡ answer_of refusal }
{
    match refusal {
        Refusal::NotAscii(line) => refuse_at(numbers::NOT_ASCII, Cursor { place: 0, line }),
        Refusal::CommentNotClosed(at) => refuse_at(numbers::COMMENT_NOT_CLOSED, at),
        Refusal::UnexpectedByte(_, at) => refuse_at(numbers::UNEXPECTED_BYTE, at),
        Refusal::NumberExpected(at) => refuse_at(numbers::NUMBER_EXPECTED, at),
        Refusal::NumberOutOfRange(at) => refuse_at(numbers::NUMBER_OUT_OF_RANGE, at),
        Refusal::TooManyBytes => refuse_at(numbers::TOO_MANY_BYTES, Cursor { place: 0, line: 0 }),
        Refusal::TooManyTokens(at) => refuse_at(numbers::TOO_MANY_TOKENS, at),
        Refusal::TooManyNames(at) => refuse_at(numbers::TOO_MANY_NAMES, at),
        Refusal::NameTooLong(at) => refuse_at(numbers::NAME_TOO_LONG, at),
    }
}

// Where the byte stands in its text.
const BYTE: usize = 19;

fn report_unexpected(message: &mut [u8], line: u32, b: u8)
    requires { message_size ≤ length message.old }
    ensures { message.new
        ≡ pad_to (length message.old) (reported line [] (unexpected b)) }
{
    let mut text = *b"Unexpected token: ' '.";
    text[BYTE] = b;
    utils::error(message, line, &text);
}

// The message of a refusal, and zeros after it.
pub(crate) fn report(message: &mut [u8], refusal: Refusal)
    requires { message_size ≤ length message.old }
    ensures { message.new ≡ pad_to (length message.old) (message_of refusal) }
{
    match refusal {
        Refusal::NotAscii(line) => utils::error(message, line, b"Only ASCII input is supported."),
        Refusal::CommentNotClosed(at) => {
            utils::error(message, at.line, b"Multiline comment no closed.")
        }
        Refusal::UnexpectedByte(b, at) => report_unexpected(message, at.line, b),
        Refusal::NumberExpected(at) => utils::error(
            message,
            at.line,
            b"Expected number after '-'.",
        ),
        Refusal::NumberOutOfRange(at) => utils::error(message, at.line, b"Number out of range."),
        Refusal::TooManyBytes => utils::error(message, 0, b"too many bytes."),
        Refusal::TooManyTokens(at) => utils::error(message, at.line, b"too many tokens."),
        Refusal::TooManyNames(at) => utils::error(message, at.line, b"too many names."),
        Refusal::NameTooLong(at) => utils::error(message, at.line, b"name too long."),
    }
}
