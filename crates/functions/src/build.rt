// A function's body with its blocks and edges: the second half of parse_function.
ghost use Rattle.std.specs.Prelude.{◌≡◌, ◌+◌, ◌*◌, ◌≤◌, length};
ghost use Rattle.lexer.specs.Decoded.{tokens_of};
ghost use Rattle.utils.specs.Limits.{most_labels};
ghost use Rattle.functions.specs.Functions.{built_d};
ghost use Rattle.functions.specs.Answer.{Room, LongSlices, SameSlices, build_read, BuildHeld};

use crate::{Body, Counts, UnitSlices};
use parser::Refusal;
use utils::limits;

// With an array for the function's labels.
fn build_with<'a>(
    tokens: &[u32],
    at: usize,
    void: bool,
    name: usize,
    n: Counts,
    unit: &mut UnitSlices<'a>,
    labels: &mut [u32],
) -> Result<Body, Refusal>
    requires { Room (tokens_of tokens.now) at n × (n.blocks * 4 + 2 ≤ at) × (most_labels ≤ length labels.old)
        × LongSlices unit.old }
    ensures value { result ≡ build_read (built_d (tokens_of tokens.now) void name at) }
    ensures build_held { BuildHeld (tokens_of tokens.now) n unit.old.items.now unit.new.items.now
        unit.old.arguments.now unit.new.arguments.now unit.old.blocks.now unit.new.blocks.now
        unit.old.predecessors.now unit.new.predecessors.now
        (built_d (tokens_of tokens.now) void name at) }
    ensures functions { unit.new.functions.now ≡ unit.old.functions.now }
    ensures same { SameSlices unit.old unit.new }
{
    let first = n.items;
    // Fields that go into one call are lent before it: the borrow checker covers no other form.
    let items = &mut *unit.items;
    let arguments = &mut *unit.arguments;
    let closed = body::parse_body(
        tokens,
        at,
        void,
        items,
        first,
        arguments,
        n.arguments,
        labels,
    )?;
    let blocks = &mut *unit.blocks;
    let predecessors = &mut *unit.predecessors;
    let linked = link::link(
        items,
        first,
        closed.items,
        name,
        labels,
        closed.labels,
        blocks,
        n.blocks,
        predecessors,
        n.predecessors,
    )?;
    Ok(Body {
        next: closed.next,
        items: closed.items,
        arguments: closed.arguments,
        blocks: linked.blocks,
        predecessors: linked.predecessors,
    })
}

// From after the opening brace; `name` is the function's name token.
pub fn build<'a>(
    tokens: &[u32],
    at: usize,
    void: bool,
    name: usize,
    n: Counts,
    unit: &mut UnitSlices<'a>,
) -> Result<Body, Refusal>
    requires { Room (tokens_of tokens.now) at n × (n.blocks * 4 + 2 ≤ at)
        × LongSlices unit.old }
    ensures value { result ≡ build_read (built_d (tokens_of tokens.now) void name at) }
    ensures build_held { BuildHeld (tokens_of tokens.now) n unit.old.items.now unit.new.items.now
        unit.old.arguments.now unit.new.arguments.now unit.old.blocks.now unit.new.blocks.now
        unit.old.predecessors.now unit.new.predecessors.now
        (built_d (tokens_of tokens.now) void name at) }
    ensures functions { unit.new.functions.now ≡ unit.old.functions.now }
    ensures same { SameSlices unit.old unit.new }
{
    let mut labels = [0u32; limits::LABELS];
    build_with(tokens, at, void, name, n, unit, &mut labels)
}
