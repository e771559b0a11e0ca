// A function's header, up to its opening brace.
ghost use Rattle.std.specs.Prelude.{◌≡◌, ◌∷◌, ◌+◌, ◌≤◌, ◌<◌, leb, length};
ghost use Rattle.std.proofs.lemmas.List.Edits.{sets};
ghost use Rattle.lexer.specs.Decoded.{tokens_of};
ghost use Rattle.parser.specs.Runs.{run_of, variables_cells};
ghost use Rattle.utils.specs.Limits.{most_functions, most_formals};
ghost use Rattle.pieces.specs.Kinds as T;
ghost use Rattle.parser.specs.Grammar.{consume_d};
ghost use Rattle.parser.specs.Step.{then_at};
ghost use Rattle.functions.specs.Functions.{optional_formals, optional_type, entered_d, signature_d, header_d};
ghost use Rattle.functions.specs.Rows.{known_from, types_at};
ghost use Rattle.functions.specs.Columns.{formals_at, IsRow, HasRows, table_size};
ghost use Rattle.functions.specs.Heads.{header_read, HeaderHeld};

use crate::{Head, columns, known};
use parser::{Refusal, Run, Ty, types};
use pieces::{Identifier, kinds};
use utils::{limits, numbers};

// Formals in parentheses, or none.
#[tactic(auto, unfolding(parser::specs::Step::opened, crate::specs::Functions::optional_formals, parser::specs::Runs::run_of, parser::specs::Runs::variables_cells))]
pub fn parse_optional_formals(
    tokens: &[u32],
    at: usize,
    rows: &mut [u32],
    used: usize,
) -> Result<Run, Refusal>
    requires { used + 32 ≤ length rows.old }
    ensures value { result ≡ run_of (optional_formals (tokens_of tokens.now) at) }
    ensures rows_after { rows.new ≡ sets rows.old used
        (variables_cells (optional_formals (tokens_of tokens.now) at).list) }
{
    let t = lexer::token_at(tokens, at);
    if t.kind == kinds::LEFT_PAREN {
        return parser::runs::parse_formals(tokens, t.next, rows, used);
    }
    Ok(Run { count: 0, next: at })
}

// A colon and a type, or void.
#[tactic(auto, unfolding(parser::specs::Step::opened, crate::specs::Functions::optional_type))]
pub fn parse_optional_type(tokens: &[u32], at: usize) -> Result<(Ty, usize), Refusal>
    ensures { result ≡ optional_type (tokens_of tokens.now) at }
{
    let t = lexer::token_at(tokens, at);
    if t.kind == kinds::COLON {
        return parser::parse_type(tokens, t.next);
    }
    Ok((Ty::Void, at))
}

// The brace behind a header; `ty` is the number of its function type.
#[tactic(auto, unfolding(parser::specs::Step::opened))]
fn open_body(tokens: &[u32], at: usize, ty: u32) -> Result<(u32, usize), Refusal>
    ensures { result ≡ then_at Err (consume_d (tokens_of tokens.now) at T.left_brace)
        (λ next. Ok (ty, next)) }
{
    let next = parser::consume(tokens, at, kinds::LEFT_BRACE)?;
    Ok((ty, next))
}

// The name is entered after the type and before `{`: SymbolTable::insert of ir.rs. Its formals stand in row n. The
// number of its function type, and the index behind the brace.
#[tactic(auto, unfolding(parser::specs::Step::opened, crate::specs::Functions::entered_d))]
fn enter(
    tokens: &[u32],
    rows: &[u32],
    n: usize,
    types: u32,
    token: usize,
    name: Identifier,
    formals: usize,
    ret: u32,
    at: usize,
) -> Result<(u32, usize), Refusal>
    requires { (n < most_functions) × (formals ≤ most_formals) × (table_size ≤ length rows.now) }
    ensures { result ≡ entered_d (tokens_of tokens.now) (known_from rows.now 0 n) types token name
        (ret ∷ formals ∷ types_at rows.now (formals_at n) formals) at }
{
    let ty = known::type_number(rows, n, ret, formals, types);
    let expected = known::expected_type(rows, n, name, ty);
    if expected != ty {
        return Err(Refusal {
            number: numbers::UNEXPECTED_TYPE,
            token,
            wanted: types::FUNCTION,
            found: types::FUNCTION,
            name,
        });
    }
    open_body(tokens, at, ty)
}

// What stands behind the name.
fn parse_signature(
    tokens: &[u32],
    token: usize,
    name: Identifier,
    at: usize,
    n: usize,
    types: u32,
    rows: &mut [u32],
) -> Result<Head, Refusal>
    requires { IsRow rows.old n }
    ensures value { result ≡ header_read (signature_d (tokens_of tokens.now)
        (known_from rows.old 0 n) types token name at) }
    ensures header_held { HeaderHeld n rows.old rows.new
        (signature_d (tokens_of tokens.now) (known_from rows.old 0 n) types token name at) }
{
    let row = columns::FORMALS + n * columns::ROW;
    let formals = parse_optional_formals(tokens, at, rows, row)?;
    let (result, at2) = parse_optional_type(tokens, formals.next)?;
    let ret = parser::runs::type_cell(result);
    let (ty, next) = enter(tokens, rows, n, types, token, name, formals.count, ret, at2)?;
    Ok(Head {
        name,
        formals: formals.count,
        ret,
        ty,
        next,
    })
}

// 35 comes once the name is read.
#[tactic(auto, unfolding(parser::specs::Step::opened, crate::specs::Functions::header_d))]
pub fn parse_header(
    tokens: &[u32],
    at: usize,
    n: usize,
    types: u32,
    rows: &mut [u32],
) -> Result<Head, Refusal>
    requires { HasRows rows.old n }
    ensures value { result ≡ header_read (header_d (tokens_of tokens.now) (leb most_functions n)
        (known_from rows.old 0 n) types at) }
    ensures header_held { HeaderHeld n rows.old rows.new
        (header_d (tokens_of tokens.now) (leb most_functions n)
        (known_from rows.old 0 n) types at) }
{
    let (name, at1) = parser::consume_named(tokens, at, kinds::GLOBAL, numbers::NO_GLOBAL)?;
    if limits::FUNCTIONS <= n {
        return Err(parser::refuse(numbers::TOO_MANY_FUNCTIONS, at));
    }
    parse_signature(tokens, at, name, at1, n, types, rows)
}
