// Tokens to operations, from the parsing half of bril-lib/src/parser.rs, with what it uses of ir.rs.
// A token is an index into the token records; line and place are looked up once, when a refusal is answered.
#![tactic(auto)]

mod expression;
pub mod labels;
pub mod runs;
mod statement;
pub mod types;

ghost use Rattle.std.specs.Prelude.{◌≡◌};
ghost use Rattle.lexer.specs.Decoded.{tokens_of};
ghost use Rattle.parser.specs.Step.{refusal};
ghost use Rattle.parser.specs.Grammar.{consume_d, named_d, type_d, end_d, definition_d, instruction_d};

use pieces::{Identifier, kinds};
use utils::numbers;

// Why the parser refuses: document 01's number, the token that the Rust reports with, and what the message needs: the
// kind (5), type (15, 17) or count (20) that was wanted, the type or count that was found, or the name that it spells
// (14 to 16).
#[derive(Clone, Copy)]
pub struct Refusal {
    pub number: u32,
    pub token: usize,
    pub wanted: u32,
    pub found: u32,
    pub name: Identifier,
}

// The types of ir.rs: its Type, whose name antt keeps for itself.
#[derive(Clone, Copy)]
pub enum Ty {
    Placeholder,
    Int,
    Bool,
    Void,
    // A function type's number: there are 64 functions at most.
    Fn(u8),
}

// Cells of a variable: its name and its type.
pub const VARIABLE_CELLS: usize = 2;

#[derive(Clone, Copy)]
pub struct Variable {
    pub id: Identifier,
    pub ty: Ty,
}

// The operations of ir.rs but calls, whose arguments are a run of a lent slice. An operand that typing has not seen yet
// is its name alone. The first number is the operation's token.
#[derive(Clone, Copy)]
pub enum Operation {
    BinaryOp {
        token: usize,
        result: Variable,
        lhs: Identifier,
        rhs: Identifier,
    },
    UnaryOp {
        token: usize,
        result: Variable,
        operand: Identifier,
    },
    Const(usize, Variable),
    Jump(usize, Identifier),
    Branch {
        token: usize,
        cond: Identifier,
        then: Identifier,
        els: Identifier,
    },
    Ret(usize),
    RetValue(usize, Identifier),
    Print(usize, Identifier),
    Nop(usize),
}

// How many variables a run has, and the index to go on at.
#[derive(Clone, Copy)]
pub struct Run {
    pub count: usize,
    pub next: usize,
}

// A call's callee, how many arguments it has, and the index to go on at.
#[derive(Clone, Copy)]
pub struct Called {
    pub callee: Identifier,
    pub count: usize,
    pub next: usize,
}

// An operation and the index to go on at; or a call, with or without a result, whose word stands at the index.
#[derive(Clone, Copy)]
pub enum Parsed {
    Done(Operation, usize),
    Call(usize),
    CallInto(Variable, usize),
}

// A refusal whose message needs no more than its token.
pub fn refuse(number: u32, token: usize) -> Refusal
    ensures { result ≡ refusal number token 0 }
{
    Refusal {
        number,
        token,
        wanted: 0,
        found: 0,
        name: Identifier(0),
    }
}

// A step answers what it found and the index to go on at, or a refusal: 5 where another kind stands.
#[tactic(auto, unfolding(crate::specs::Step::opened, crate::specs::Grammar::consume_d))]
pub fn consume(tokens: &[u32], at: usize, kind: u32) -> Result<usize, Refusal>
    ensures { result ≡ consume_d (tokens_of tokens.now) at kind }
{
    let t = lexer::token_at(tokens, at);
    if t.kind == kind {
        return Ok(t.next);
    }
    Err(Refusal {
        number: numbers::TOKEN_EXPECTED,
        token: at,
        wanted: kind,
        found: 0,
        name: Identifier(0),
    })
}

// A local, global or label, or the refusal with this number.
#[tactic(auto, unfolding(crate::specs::Step::opened, crate::specs::Grammar::named_d))]
pub fn consume_named(
    tokens: &[u32],
    at: usize,
    kind: u32,
    number: u32,
) -> Result<(Identifier, usize), Refusal>
    ensures { result ≡ named_d (tokens_of tokens.now) at kind number }
{
    let t = lexer::token_at(tokens, at);
    if t.kind == kind {
        return Ok((t.name, t.next));
    }
    Err(refuse(number, at))
}

#[tactic(auto, unfolding(crate::specs::Step::opened, crate::specs::Grammar::type_d))]
pub fn parse_type(tokens: &[u32], at: usize) -> Result<(Ty, usize), Refusal>
    ensures { result ≡ type_d (tokens_of tokens.now) at }
{
    let t = lexer::token_at(tokens, at);
    match t.kind {
        kinds::INT => Ok((Ty::Int, t.next)),
        kinds::BOOL => Ok((Ty::Bool, t.next)),
        _ => Err(refuse(numbers::NO_TYPE, at)),
    }
}

// The semicolon behind an operation.
#[tactic(auto, unfolding(crate::specs::Step::opened))]
pub(crate) fn parse_end(tokens: &[u32], operation: Operation, at: usize) -> Result<Parsed, Refusal>
    ensures { result ≡ end_d (tokens_of tokens.now) operation at }
{
    let next = consume(tokens, at, kinds::SEMICOLON)?;
    Ok(Parsed::Done(operation, next))
}

#[tactic(auto, unfolding(crate::specs::Step::opened, crate::specs::Grammar::definition_d))]
fn parse_definition(tokens: &[u32], at: usize) -> Result<Parsed, Refusal>
    ensures { result ≡ definition_d (tokens_of tokens.now) at }
{
    let (result, at1) = expression::parse_defined(tokens, at)?;
    expression::parse_value(tokens, result, at1)
}

// One operation from its first token. The Rust's parse_instruction but for labels, which the body's loop reads.
#[tactic(auto, unfolding(crate::specs::Step::opened, crate::specs::Grammar::instruction_d))]
pub fn parse_instruction(tokens: &[u32], at: usize) -> Result<Parsed, Refusal>
    ensures { result ≡ instruction_d (tokens_of tokens.now) at }
{
    let t = lexer::token_at(tokens, at);
    let next = t.next;
    match t.kind {
        kinds::PRINT => statement::parse_print(tokens, at, next),
        kinds::RET => statement::parse_ret(tokens, at, next),
        kinds::JMP => statement::parse_jump(tokens, at, next),
        kinds::BR => statement::parse_branch(tokens, at, next),
        kinds::NOP => parse_end(tokens, Operation::Nop(at), next),
        kinds::CALL => Ok(Parsed::Call(at)),
        _ => parse_definition(tokens, at),
    }
}
