// Operations that call nothing, each in document 01's order of look-ups, entries and comparisons.
ghost use Rattle.std.specs.Prelude.{◌≡◌, List, ℕ};
ghost use Rattle.sema.specs.Symbols.{typed, on, then_same};
ghost use Rattle.sema.specs.Typing.{then_three, operands_d, type_binary_d, operand_d, type_unary_d, type_const_d};
ghost use Rattle.sema.specs.Typing.{type_ret_d, type_ret_value_d};

use crate::symbols;
use parser::{Refusal, types};
use pieces::{Identifier, kinds};
use utils::numbers;

// One type, then another.
#[tactic(auto, unfolding(crate::specs::Symbols::opened))]
fn expect_both(
    token: usize,
    found: u32,
    wanted: u32,
    other: u32,
    of_other: u32,
) -> Result<(), Refusal>
    ensures { (t : List ℕ) → typed t result
        ≡ then_same t token found wanted (then_same t token other of_other (on t)) }
{
    symbols::expect_type(token, found, wanted)?;
    symbols::expect_type(token, other, of_other)
}

// The result's type, then the left and the right operand's.
#[tactic(auto, unfolding(crate::specs::Symbols::opened, crate::specs::Typing::then_three))]
fn expect_three(
    token: usize,
    res: u32,
    left: u32,
    right: u32,
    of_result: u32,
    of_operands: u32,
) -> Result<(), Refusal>
    ensures { (t : List ℕ) → typed t result ≡ then_three t token res left right of_result of_operands }
{
    symbols::expect_type(token, res, of_result)?;
    expect_both(token, left, of_operands, right, of_operands)
}

// Integers; `eq`, of one type; the other comparisons, of integers; `and` and `or`.
#[tactic(auto, unfolding(crate::specs::Typing::operands_d, utils::specs::Bytes::pick))]
fn expect_operands(kind: u32, token: usize, res: u32, left: u32, right: u32) -> Result<(), Refusal>
    ensures { (t : List ℕ) → typed t result ≡ operands_d t kind token res left right }
{
    match kind {
        0..=kinds::MOD => expect_three(token, res, left, right, types::INT, types::INT),
        kinds::EQ => expect_both(token, right, left, res, types::BOOL),
        0..=kinds::GE => expect_three(token, res, left, right, types::BOOL, types::INT),
        _ => expect_three(token, res, left, right, types::BOOL, types::BOOL),
    }
}

// Operands are looked up before the result is entered.
#[tactic(auto, unfolding(crate::specs::Symbols::opened, crate::specs::Typing::type_binary_d))]
pub fn analyze_bin_op(
    table: &mut [u32],
    kind: u32,
    token: usize,
    res: Identifier,
    ty: u32,
    lhs: Identifier,
    rhs: Identifier,
) -> Result<(), Refusal>
    ensures { typed table.new result ≡ type_binary_d table.old kind token res ty lhs rhs }
{
    let left = symbols::look(table, token, lhs)?;
    let right = symbols::look(table, token, rhs)?;
    symbols::insert(table, token, res, ty)?;
    expect_operands(kind, token, ty, left, right)
}

// `id` holds the operand against the result, `not` both against bool.
#[tactic(auto, unfolding(crate::specs::Symbols::opened, crate::specs::Typing::operand_d))]
fn expect_operand(kind: u32, token: usize, res: u32, operand: u32) -> Result<(), Refusal>
    ensures { (t : List ℕ) → typed t result ≡ operand_d t kind token res operand }
{
    if kind == kinds::ID {
        return symbols::expect_type(token, operand, res);
    }
    expect_both(token, res, types::BOOL, operand, types::BOOL)
}

#[tactic(auto, unfolding(crate::specs::Symbols::opened, crate::specs::Typing::type_unary_d))]
pub fn analyze_unary_op(
    table: &mut [u32],
    kind: u32,
    token: usize,
    res: Identifier,
    ty: u32,
    operand: Identifier,
) -> Result<(), Refusal>
    ensures { typed table.new result ≡ type_unary_d table.old kind token res ty operand }
{
    let found = symbols::look(table, token, operand)?;
    symbols::insert(table, token, res, ty)?;
    expect_operand(kind, token, ty, found)
}

// Compared before it is entered.
#[tactic(auto, unfolding(crate::specs::Symbols::opened, crate::specs::Typing::type_const_d))]
pub fn analyze_const(
    table: &mut [u32],
    kind: u32,
    token: usize,
    res: Identifier,
    ty: u32,
) -> Result<(), Refusal>
    ensures { typed table.new result ≡ type_const_d table.old kind token res ty }
{
    let found = if kind == kinds::INTEGER {
        types::INT
    } else {
        types::BOOL
    };
    symbols::expect_type(token, found, ty)?;
    symbols::insert(table, token, res, ty)
}

#[tactic(auto, unfolding(utils::specs::Bytes::pick, crate::specs::Typing::type_ret_d))]
pub fn analyze_ret(ret: u32, token: usize) -> Result<(), Refusal>
    ensures { (t : List ℕ) → typed t result ≡ type_ret_d t ret token }
{
    if ret == types::VOID {
        return Ok(());
    }
    Err(parser::refuse(numbers::NO_VALUE, token))
}

#[tactic(auto, unfolding(crate::specs::Symbols::opened, crate::specs::Typing::type_ret_value_d))]
pub fn analyze_ret_value(
    table: &[u32],
    ret: u32,
    token: usize,
    x: Identifier,
) -> Result<(), Refusal>
    ensures { typed table.now result ≡ type_ret_value_d table.now ret token x }
{
    let found = symbols::look(table, token, x)?;
    if ret == types::VOID {
        return Err(parser::refuse(numbers::VOID_VALUE, token));
    }
    symbols::expect_type(token, found, ret)
}
