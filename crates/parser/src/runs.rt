// Formals and arguments: runs of variables in a lent slice, two cells each.
ghost use Rattle.std.specs.Prelude.{◌≡◌, ◌+◌, ◌*◌, ◌≤◌, length};
ghost use Rattle.std.proofs.lemmas.List.Edits.{sets};
ghost use Rattle.lexer.specs.Decoded.{tokens_of};
ghost use Rattle.utils.specs.Limits.{most_formals, most_arguments};
ghost use Rattle.parser.specs.Runs.{type_cell, variable_cells, variables_cells, run_of};
ghost use Rattle.parser.specs.Runs.{formal_d, closed_d, formals_from_d, formals_d, arguments_d, call_d, called_of};

use crate::{
    Called, Refusal, Run, Ty, VARIABLE_CELLS, Variable, consume, consume_named, parse_type, refuse,
    types,
};
use pieces::kinds;
use utils::{limits, numbers, put_cells};

pub fn type_cell(ty: Ty) -> u32
    ensures { result ≡ type_cell ty }
{
    match ty {
        Ty::Placeholder => types::PLACEHOLDER,
        Ty::Int => types::INT,
        Ty::Bool => types::BOOL,
        Ty::Void => types::VOID,
        Ty::Fn(n) => n as u32 + types::FUNCTION,
    }
}

fn put_variable(cells: &mut [u32], at: usize, v: Variable)
    requires { at + 2 ≤ length cells.old }
    ensures { cells.new ≡ sets cells.old at (variable_cells v) }
{
    let ty = v.ty;
    let part = [v.id.0, type_cell(ty)];
    put_cells(cells, at, &part);
}

// 36 comes once the local is read.
#[tactic(auto, unfolding(crate::specs::Step::opened, crate::specs::Runs::formal_d))]
fn parse_formal(tokens: &[u32], at: usize, full: bool) -> Result<(Variable, usize), Refusal>
    ensures { result ≡ formal_d (tokens_of tokens.now) full at }
{
    let (id, at1) = consume_named(tokens, at, kinds::LOCAL, numbers::NO_LOCAL)?;
    if full {
        return Err(refuse(numbers::TOO_MANY_FORMALS, at));
    }
    let at2 = consume(tokens, at1, kinds::COLON)?;
    let (ty, at3) = parse_type(tokens, at2)?;
    Ok((Variable { id, ty }, at3))
}

// The closing parenthesis behind n formals.
#[tactic(auto, unfolding(crate::specs::Step::opened, crate::specs::Runs::closed_d))]
fn close_formals(tokens: &[u32], at: usize, n: usize) -> Result<Run, Refusal>
    ensures { result ≡ closed_d (tokens_of tokens.now) at n }
{
    let next = consume(tokens, at, kinds::RIGHT_PAREN)?;
    Ok(Run { count: n, next })
}

fn parse_formals_from(
    tokens: &[u32],
    at: usize,
    cells: &mut [u32],
    used: usize,
) -> Result<Run, Refusal>
    requires { used + 32 ≤ length cells.old }
    ensures value { result ≡ run_of (formals_from_d (tokens_of tokens.now) most_formals at) }
    ensures cells_after { cells.new ≡ sets cells.old used
        (variables_cells (formals_from_d (tokens_of tokens.now) most_formals at).list) }
{
    let mut n: usize = 0;
    let mut here = at;
    loop {
        let (v, next) = parse_formal(tokens, here, limits::FORMALS <= n)?;
        put_variable(cells, used + n * VARIABLE_CELLS, v);
        n += 1;
        let t = lexer::token_at(tokens, next);
        if t.kind != kinds::COMMA {
            return close_formals(tokens, next, n);
        }
        here = t.next;
    }
}

// From after the opening parenthesis.
pub fn parse_formals(
    tokens: &[u32],
    at: usize,
    cells: &mut [u32],
    used: usize,
) -> Result<Run, Refusal>
    requires { used + 32 ≤ length cells.old }
    ensures value { result ≡ run_of (formals_d (tokens_of tokens.now) at) }
    ensures cells_after { cells.new
        ≡ sets cells.old used (variables_cells (formals_d (tokens_of tokens.now) at).list) }
{
    let t = lexer::token_at(tokens, at);
    if t.kind == kinds::RIGHT_PAREN {
        return Ok(Run {
            count: 0,
            next: t.next,
        });
    }
    parse_formals_from(tokens, at, cells, used)
}

// Locals up to the semicolon. 37 comes once the local is read.
pub fn parse_arguments(
    tokens: &[u32],
    at: usize,
    cells: &mut [u32],
    used: usize,
) -> Result<Run, Refusal>
    requires { used + 32 ≤ length cells.old }
    ensures value { result ≡ run_of (arguments_d (tokens_of tokens.now) most_arguments at) }
    ensures cells_after { cells.new
        ≡ sets cells.old used
        (variables_cells (arguments_d (tokens_of tokens.now) most_arguments at).list) }
{
    let mut n: usize = 0;
    let mut here = at;
    loop {
        let t = lexer::token_at(tokens, here);
        if t.kind == kinds::SEMICOLON {
            return Ok(Run {
                count: n,
                next: t.next,
            });
        }
        let (id, next) = consume_named(tokens, here, kinds::LOCAL, numbers::NO_LOCAL)?;
        if limits::ARGUMENTS <= n {
            return Err(refuse(numbers::TOO_MANY_ARGUMENTS, here));
        }
        let ty = Ty::Placeholder;
        put_variable(cells, used + n * VARIABLE_CELLS, Variable { id, ty });
        n += 1;
        here = next;
    }
}

// From the word `call` on.
#[tactic(auto, unfolding(crate::specs::Step::opened, crate::specs::Runs::call_d, crate::specs::Runs::called_of, crate::specs::Runs::variables_cells))]
pub fn parse_call(
    tokens: &[u32],
    word: usize,
    cells: &mut [u32],
    used: usize,
) -> Result<Called, Refusal>
    requires { used + 32 ≤ length cells.old }
    ensures value { result ≡ called_of (call_d (tokens_of tokens.now) word) }
    ensures cells_after { cells.new ≡ sets cells.old used
        (variables_cells (call_d (tokens_of tokens.now) word).arguments.list) }
{
    let at = consume(tokens, word, kinds::CALL)?;
    let (callee, at1) = consume_named(tokens, at, kinds::GLOBAL, numbers::NO_GLOBAL)?;
    let Run { count, next } = parse_arguments(tokens, at1, cells, used)?;
    Ok(Called {
        callee,
        count,
        next,
    })
}
