// The operations that give a result: `x: type =` and what stands after it.
ghost use Rattle.std.specs.Prelude.{◌≡◌};
ghost use Rattle.lexer.specs.Decoded.{tokens_of};
ghost use Rattle.parser.specs.Grammar.{defined_d, is_constant, const_d, unary_d, binary_d, is_unary, is_binary, value_d};

use crate::{
    Operation, Parsed, Refusal, Variable, consume, consume_named, parse_end, parse_type, refuse,
};
use pieces::kinds;
use utils::numbers;

#[tactic(auto, unfolding(crate::specs::Step::opened, crate::specs::Grammar::defined_d))]
pub(crate) fn parse_defined(tokens: &[u32], at: usize) -> Result<(Variable, usize), Refusal>
    ensures { result ≡ defined_d (tokens_of tokens.now) at }
{
    let (id, at1) = consume_named(tokens, at, kinds::LOCAL, numbers::NO_LOCAL)?;
    let at2 = consume(tokens, at1, kinds::COLON)?;
    let (ty, at3) = parse_type(tokens, at2)?;
    let at4 = consume(tokens, at3, kinds::DEFINE)?;
    Ok((Variable { id, ty }, at4))
}

#[tactic(auto, unfolding(crate::specs::Step::opened, crate::specs::Grammar::is_constant))]
fn is_constant(kind: u32) -> bool
    ensures { result ≡ is_constant kind }
{
    matches!(kind, kinds::INTEGER | kinds::TRUE | kinds::FALSE)
}

// The Rust reports a missing constant with the word `const`, and keeps the value's token.
#[tactic(auto, unfolding(crate::specs::Step::opened, crate::specs::Grammar::const_d))]
fn parse_const(tokens: &[u32], res: Variable, word: usize, at: usize) -> Result<Parsed, Refusal>
    ensures { result ≡ const_d (tokens_of tokens.now) res word at }
{
    let t = lexer::token_at(tokens, at);
    if is_constant(t.kind) {
        return parse_end(tokens, Operation::Const(at, res), t.next);
    }
    Err(refuse(numbers::NO_CONSTANT, word))
}

#[tactic(auto, unfolding(crate::specs::Step::opened, crate::specs::Grammar::unary_d))]
fn parse_unary(tokens: &[u32], res: Variable, word: usize, at: usize) -> Result<Parsed, Refusal>
    ensures { result ≡ unary_d (tokens_of tokens.now) res word at }
{
    let (operand, at1) = consume_named(tokens, at, kinds::LOCAL, numbers::NO_LOCAL)?;
    let unary = Operation::UnaryOp {
        token: word,
        result: res,
        operand,
    };
    parse_end(tokens, unary, at1)
}

#[tactic(auto, unfolding(crate::specs::Step::opened, crate::specs::Grammar::binary_d))]
fn parse_binary(tokens: &[u32], res: Variable, word: usize, at: usize) -> Result<Parsed, Refusal>
    ensures { result ≡ binary_d (tokens_of tokens.now) res word at }
{
    let (lhs, at1) = consume_named(tokens, at, kinds::LOCAL, numbers::NO_LOCAL)?;
    let (rhs, at2) = consume_named(tokens, at1, kinds::LOCAL, numbers::NO_LOCAL)?;
    let binary = Operation::BinaryOp {
        token: word,
        result: res,
        lhs,
        rhs,
    };
    parse_end(tokens, binary, at2)
}

#[tactic(auto, unfolding(crate::specs::Step::opened, crate::specs::Grammar::is_unary))]
fn is_unary(kind: u32) -> bool
    ensures { result ≡ is_unary kind }
{
    matches!(kind, kinds::NOT | kinds::ID)
}

#[tactic(auto, unfolding(crate::specs::Step::opened, crate::specs::Grammar::is_binary))]
fn is_binary(kind: u32) -> bool
    ensures { result ≡ is_binary kind }
{
    matches!(kind, kinds::ADD..=kinds::MOD | kinds::EQ..=kinds::GE | kinds::AND | kinds::OR)
}

#[tactic(auto, unfolding(crate::specs::Step::opened, crate::specs::Grammar::value_d))]
pub(crate) fn parse_value(tokens: &[u32], res: Variable, at: usize) -> Result<Parsed, Refusal>
    ensures { result ≡ value_d (tokens_of tokens.now) res at }
{
    let t = lexer::token_at(tokens, at);
    let next = t.next;
    if t.kind == kinds::CALL {
        return Ok(Parsed::CallInto(res, at));
    }
    if t.kind == kinds::CONST {
        return parse_const(tokens, res, at, next);
    }
    if is_unary(t.kind) {
        return parse_unary(tokens, res, at, next);
    }
    if is_binary(t.kind) {
        return parse_binary(tokens, res, at, next);
    }
    Err(refuse(numbers::UNEXPECTED_TOKEN, at))
}
