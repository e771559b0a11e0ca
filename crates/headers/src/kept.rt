// Before the new text is parsed: whether it begins and ends as one function (40), and keeps the replaced one's header
// (41).
ghost use Rattle.std.specs.Prelude.{◌≡◌, ◌-◌};
ghost use Rattle.utils.specs.Bytes.{same_bytes};
ghost use Rattle.lexer.specs.Decoded.{tokens_of};
ghost use Rattle.functions.specs.Rows.{signed_at};
ghost use Rattle.functions.specs.Columns.{IsRow};
ghost use Rattle.headers.specs.Spelled.{row_name};
ghost use Rattle.headers.specs.Kept.{is_whole, keeps_behind, keeps};

use crate::{bring, names};
use functions::{columns, header, known};
use lexer::sizes::TOKEN_CELLS;
use parser::runs;
use pieces::{Identifier, kinds};
use utils::numbers;

// Whether the first byte begins a global, and the last is a `}`.
#[tactic(auto, unfolding(crate::specs::Kept::is_whole, utils::specs::Bytes::pick), using(crate::proofs::Against::last_token))]
pub fn is_whole(new: &[u8], tokens: &[u32]) -> bool
    ensures { result ≡ is_whole new.now (tokens_of tokens.now) }
{
    let first = lexer::token_at(tokens, 0);
    let last = lexer::token_at(tokens, (tokens.len() / TOKEN_CELLS).saturating_sub(2));
    first.kind == kinds::GLOBAL
        && first.place == 0
        && last.kind == kinds::RIGHT_BRACE
        && last.place as usize + 1 == new.len()
}

// Whether the name and what stands behind it, from `at` on, are row i's. In `local` that row is copied to row 0, and
// the new formals are read into row 1.
fn keeps_behind<'t, 'c>(
    old: &'t [u8],
    new: &'t [u8],
    rows: &'c [u32],
    names: &'c [u32],
    i: usize,
    tokens: &[u32],
    name: Identifier,
    at: usize,
    local: &mut [u32],
) -> bool
    requires { IsRow local.old i }
    ensures { result ≡ keeps_behind (same_bytes (row_name old.now rows.now i))
        (signed_at rows.now i) new.now names.now (tokens_of tokens.now)
        name at }
{
    bring::copy_row(local, 0, rows, i);
    let Ok(formals) = header::parse_optional_formals(tokens, at, local, columns::SECOND_FORMALS)
    else {
        return true;
    };
    let Ok((result, _)) = header::parse_optional_type(tokens, formals.next) else {
        return true;
    };
    if !names::is_spelled(old, new, rows, names, i, name) {
        return false;
    }
    known::same_type(local, 0, runs::type_cell(result), formals.count, 1)
}

// Whether the new function has the name and the function type of row i. What is refused before the name would be
// entered is no matter here.
#[tactic(auto, unfolding(parser::specs::Step::opened, crate::specs::Kept::keeps))]
pub fn keeps<'t, 'c>(
    old: &'t [u8],
    new: &'t [u8],
    rows: &'c [u32],
    names: &'c [u32],
    i: usize,
    tokens: &[u32],
    local: &mut [u32],
) -> bool
    requires { IsRow local.old i }
    ensures { result ≡ keeps (same_bytes (row_name old.now rows.now i))
        (signed_at rows.now i) new.now names.now (tokens_of tokens.now) }
{
    match parser::consume_named(tokens, 0, kinds::GLOBAL, numbers::NO_GLOBAL) {
        Err(_) => true,
        Ok((name, at)) => keeps_behind(old, new, rows, names, i, tokens, name, at, local),
    }
}
