// Cells as bytes. They go out little-endian, at the offsets of docs/INTERFACE.md.
#![tactic(auto)]

pub mod check;
pub mod layout;

ghost use Rattle.std.specs.Prelude.{◌≡◌, ◌+◌, ◌*◌, ◌≤◌, length, take};
ghost use Rattle.std.proofs.lemmas.List.Edits.{sets};
ghost use Rattle.utils.specs.Bytes.{pad_to};
ghost use Rattle.lexer.specs.Read.{read_of};
ghost use Rattle.utils.specs.Limits.{message_size};
ghost use Rattle.lexer.specs.Sizes.{tokens_size, names_size};
ghost use Rattle.exports.specs.Bytes.{le32, le32s, export, exported, read_size};

use lexer::ReadAnswer;
use lexer::sizes::{NAME_CELLS, TOKEN_CELLS};

// A cell as four bytes, the lowest first.
fn put_cell(out: &mut [u8], at: usize, cell: u32)
    requires { at + 4 ≤ length out.old }
    ensures { out.new ≡ sets out.old at (le32 cell) }
{
    utils::put_cells(out, at, &cell.to_le_bytes());
}

fn put_cells(out: &mut [u8], at: usize, cells: &[u32])
    requires { at + length cells.now * 4 ≤ length out.old }
    ensures { out.new ≡ sets out.old at (le32s cells.now) }
{
    for (i, cell) in cells.iter().enumerate() {
        put_cell(out, at + i * layout::CELL, *cell);
    }
}

// The first n cells of a slice, and zeros in the room of the others.
fn put_front(out: &mut [u8], at: usize, cells: &[u32], n: usize)
    requires { at + length cells.now * 4 ≤ length out.old }
    ensures { out.new
        ≡ sets out.old at (le32s (pad_to (length cells.now) (take n cells.now))) }
{
    let n = n.min(cells.len());
    put_cells(out, at, &cells[..n]);
    out[at + n * layout::CELL..at + cells.len() * layout::CELL].fill(0);
}

// Reads into the front of cells, and stores those as bytes.
pub fn read_out(
    text: &[u8],
    tokens: &mut [u32; lexer::sizes::TOKENS],
    names: &mut [u32; lexer::sizes::NAMES],
    out: &mut [u8],
    message: &mut [u8],
) -> ReadAnswer
    requires { (length tokens.old ≡ tokens_size) × (length names.old ≡ names_size)
        × (read_size ≤ length out.old) × (message_size ≤ length message.old) }
    ensures { export result out.new message.new
        ≡ exported out.old message.old (read_of text.now) }
{
    let answer = read::read_into(text, read::FIRST_LINE, tokens, names, message);
    put_front(out, 0, tokens, answer.tokens as usize * TOKEN_CELLS);
    put_front(
        out,
        layout::NAMES,
        names,
        answer.names as usize * NAME_CELLS,
    );
    out[layout::READ..].fill(0);
    read::finish_message(answer.number, message);
    answer
}
