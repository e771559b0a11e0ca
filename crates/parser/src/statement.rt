// The operations that give no result, each from the token after its word.
ghost use Rattle.std.specs.Prelude.{◌≡◌};
ghost use Rattle.lexer.specs.Decoded.{tokens_of};
ghost use Rattle.parser.specs.Grammar.{print_d, ret_d, jump_d, branch_d};

use crate::{Operation, Parsed, Refusal, consume_named, parse_end};
use pieces::kinds;
use utils::numbers;

#[tactic(auto, unfolding(crate::specs::Step::opened, crate::specs::Grammar::print_d))]
pub(crate) fn parse_print(tokens: &[u32], word: usize, at: usize) -> Result<Parsed, Refusal>
    ensures { result ≡ print_d (tokens_of tokens.now) word at }
{
    let (x, at1) = consume_named(tokens, at, kinds::LOCAL, numbers::NO_LOCAL)?;
    parse_end(tokens, Operation::Print(word, x), at1)
}

#[tactic(auto, unfolding(crate::specs::Step::opened, crate::specs::Grammar::ret_d))]
pub(crate) fn parse_ret(tokens: &[u32], word: usize, at: usize) -> Result<Parsed, Refusal>
    ensures { result ≡ ret_d (tokens_of tokens.now) word at }
{
    let t = lexer::token_at(tokens, at);
    if t.kind == kinds::SEMICOLON {
        return Ok(Parsed::Done(Operation::Ret(word), t.next));
    }
    let (x, at1) = consume_named(tokens, at, kinds::LOCAL, numbers::NO_LOCAL)?;
    parse_end(tokens, Operation::RetValue(word, x), at1)
}

#[tactic(auto, unfolding(crate::specs::Step::opened, crate::specs::Grammar::jump_d))]
pub(crate) fn parse_jump(tokens: &[u32], word: usize, at: usize) -> Result<Parsed, Refusal>
    ensures { result ≡ jump_d (tokens_of tokens.now) word at }
{
    let (l, at1) = consume_named(tokens, at, kinds::LABEL, numbers::NO_LABEL)?;
    parse_end(tokens, Operation::Jump(word, l), at1)
}

#[tactic(auto, unfolding(crate::specs::Step::opened, crate::specs::Grammar::branch_d))]
pub(crate) fn parse_branch(tokens: &[u32], word: usize, at: usize) -> Result<Parsed, Refusal>
    ensures { result ≡ branch_d (tokens_of tokens.now) word at }
{
    let (cond, at1) = consume_named(tokens, at, kinds::LOCAL, numbers::NO_LOCAL)?;
    let (then, at2) = consume_named(tokens, at1, kinds::LABEL, numbers::NO_LABEL)?;
    let (els, at3) = consume_named(tokens, at2, kinds::LABEL, numbers::NO_LABEL)?;
    let branch = Operation::Branch {
        token: word,
        cond,
        then,
        els,
    };
    parse_end(tokens, branch, at3)
}
