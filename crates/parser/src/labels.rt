// The labels of a function: the Rust's LabelsToBlocks as a run of numbers with a count, looked up one by one.
ghost use Rattle.std.specs.Prelude.{◌≡◌, ◌≤◌, length, take};
ghost use Rattle.lexer.specs.Decoded.{tokens_of};
ghost use Rattle.parser.specs.Labels.{has, labelled_d};

use crate::{Identifier, Refusal, consume, consume_named, refuse};
use pieces::kinds;
use utils::{limits, numbers};

fn has_label(labels: &[u32], count: usize, name: Identifier) -> bool
    requires { count ≤ length labels.now }
    ensures { result ≡ has (take count labels.now) name.0 }
{
    labels[..count].contains(&name.0)
}

// A label and its colon; 38, then 13, for the `count` labels that the function has so far.
#[tactic(auto, unfolding(crate::specs::Step::opened, crate::specs::Labels::labelled_d))]
pub fn parse_label(
    tokens: &[u32],
    at: usize,
    labels: &[u32],
    count: usize,
) -> Result<(Identifier, usize), Refusal>
    requires { count ≤ length labels.now }
    ensures { result ≡ labelled_d (tokens_of tokens.now) (take count labels.now) at }
{
    let (label, at1) = consume_named(tokens, at, kinds::LABEL, numbers::NO_LABEL)?;
    let at2 = consume(tokens, at1, kinds::COLON)?;
    if limits::LABELS <= count {
        return Err(refuse(numbers::TOO_MANY_LABELS, at));
    }
    if has_label(labels, count, label) {
        return Err(refuse(numbers::DUPLICATE_LABEL, at));
    }
    Ok((label, at2))
}
