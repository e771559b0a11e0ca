// A function's row in the header table: 45 cells, of which the formals are stored as they are read, and zeros fill the
// room of those that there are not.
ghost use Rattle.std.specs.Prelude.{◌≡◌, [], ◌∷◌, ◌+◌, ◌*◌, ◌-◌, ◌≤◌, ◌<◌, length, get_or, replicate};
ghost use Rattle.std.proofs.lemmas.List.Edits.{sets};
ghost use Rattle.lexer.specs.Decoded.{tokens_of, token_at};
ghost use Rattle.utils.specs.Limits.{most_functions, most_formals};
ghost use Rattle.functions.specs.Columns.{row_at, ret_at, formals_at, table_size};
ghost use Rattle.functions.specs.Answer.{counts};

use crate::{Body, Counts, Head, columns};
use lexer::sizes::NAME_CELLS;
use parser::VARIABLE_CELLS;
use pieces::Identifier;
use utils::{cell_at, clear_part, limits, put_cells};

// A name's length, by its record.
fn name_length(names: &[u32], name: Identifier) -> u32
    ensures { result ≡ get_or names.now (name.0 * 2 + 1) 0 }
{
    cell_at(names, name.0 as usize * NAME_CELLS + 1)
}

// The name's token, the name, the closing token, and the name's place, length and line.
pub fn put_name(
    rows: &mut [u32],
    i: usize,
    tokens: &[u32],
    names: &[u32],
    token: usize,
    name: Identifier,
    close: usize,
)
    requires { (i < most_functions) × (token ≤ 4095) × (close ≤ 4095) × (table_size ≤ length rows.old) }
    ensures { rows.new ≡ sets rows.old (row_at i)
        (token ∷ name.0 ∷ close ∷ (token_at (tokens_of tokens.now) token).place
        ∷ get_or names.now (name.0 * 2 + 1) 0
        ∷ (token_at (tokens_of tokens.now) token).line.0 ∷ []) }
{
    let t = lexer::token_at(tokens, token);
    let len = name_length(names, name);
    let cells = [token as u32, name.0, close as u32, t.place, len, t.line.0];
    put_cells(rows, columns::TOKEN + i * columns::ROW, &cells);
}

// The result type, the function type's number, where items and blocks begin and how many they are, how many formals.
pub fn put_counts(
    rows: &mut [u32],
    i: usize,
    ret: u32,
    ty: u32,
    first: usize,
    items: usize,
    base: usize,
    blocks: usize,
    formals: usize,
)
    requires { (i < most_functions) × (first ≤ 4096) × (items ≤ 4096) × (base ≤ 4096) × (blocks ≤ 4096)
        × (formals ≤ most_formals)
        × (table_size ≤ length rows.old) }
    ensures { rows.new ≡ sets rows.old (ret_at i)
        (ret ∷ ty ∷ first ∷ items ∷ base ∷ blocks ∷ formals ∷ []) }
{
    let cells = [
        ret,
        ty,
        first as u32,
        items as u32,
        base as u32,
        blocks as u32,
        formals as u32,
    ];
    put_cells(rows, columns::RESULT + i * columns::ROW, &cells);
}

// The cells before the formals, which stand there already, and zeros behind them.
pub fn put_row(
    rows: &mut [u32],
    tokens: &[u32],
    names: &[u32],
    token: usize,
    n: Counts,
    h: Head,
    b: Body,
)
    requires { (n.functions < most_functions) × (token ≤ 4095) × (1 ≤ b.next) × (b.next ≤ 4096) × (n.items ≤ 4096)
        × (b.items ≤ 4096) × (n.blocks ≤ 4096) × (b.blocks ≤ 4096) × (h.formals ≤ most_formals)
        × (table_size ≤ length rows.old) }
    ensures { rows.new ≡ sets (sets rows.old (row_at n.functions)
        (token ∷ h.name.0 ∷ (b.next - 1) ∷ (token_at (tokens_of tokens.now) token).place
        ∷ get_or names.now (h.name.0 * 2 + 1) 0 ∷ (token_at (tokens_of tokens.now) token).line.0
        ∷ h.ret ∷ h.ty ∷ n.items ∷ b.items ∷ n.blocks ∷ b.blocks ∷ h.formals ∷ []))
        (formals_at n.functions + h.formals * 2) (replicate (32 - h.formals * 2) 0) }
{
    let i = n.functions;
    put_name(rows, i, tokens, names, token, h.name, b.next - 1);
    put_counts(
        rows, i, h.ret, h.ty, n.items, b.items, n.blocks, b.blocks, h.formals,
    );
    let from = columns::FORMALS + i * columns::ROW;
    clear_part(
        rows,
        from + h.formals * VARIABLE_CELLS,
        from + limits::FORMALS * VARIABLE_CELLS,
    );
}

// What is used with one function more.
pub fn counts_after(n: Counts, b: Body) -> Counts
    requires { (n.functions ≤ 4096) × (n.items ≤ 4096) × (b.items ≤ 4096)
        × (n.arguments ≤ 4096) × (b.arguments ≤ 4096)
        × (n.blocks ≤ 4096) × (b.blocks ≤ 4096) × (n.predecessors ≤ 4096) × (b.predecessors ≤ 4096) }
    ensures { result ≡ counts (n.functions + 1) (n.items + b.items) (n.arguments + b.arguments)
        (n.blocks + b.blocks) (n.predecessors + b.predecessors) }
{
    Counts {
        functions: n.functions + 1,
        items: n.items + b.items,
        arguments: n.arguments + b.arguments,
        blocks: n.blocks + b.blocks,
        predecessors: n.predecessors + b.predecessors,
    }
}
