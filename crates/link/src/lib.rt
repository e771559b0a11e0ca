// Blocks and edges of a function, once its body is read: the end of parse_function of bril-lib/src/parser.rs.
#![tactic(auto)]

mod close;
mod enter;
mod labels;

ghost use Rattle.std.specs.Prelude.{◌≡◌};
ghost use Rattle.body.specs.Records.{parts_at};
ghost use Rattle.link.specs.Cells.{link_d, LinkHeld};
ghost use Rattle.link.specs.Steps.{Ready};

use graph::BlockId;
use labels::Labels;
use parser::Refusal;

// How many blocks and predecessors a function has.
#[derive(Clone, Copy)]
pub struct Linked {
    pub blocks: usize,
    pub predecessors: usize,
}

// How many successors a block has, and the two of them, as its record holds them.
#[derive(Clone, Copy)]
pub struct Goes {
    pub count: u32,
    pub to: BlockId,
    pub other: BlockId,
}

// The items of a function stand in `count` records from the record `first` on, and its labels at the front of `labels`;
// `name` is the token of its name. Its block records go to `blocks` from the record `base` on, and the predecessors of
// its blocks to `predecessors` from the cell `used` on. A refusal is 22 or 14.
pub fn link(
    items: &[u32],
    first: usize,
    count: usize,
    name: usize,
    labels: &[u32],
    labelled: usize,
    blocks: &mut [u32],
    base: usize,
    predecessors: &mut [u32],
    used: usize,
) -> Result<Linked, Refusal>
    requires { Ready items.now first count labels.now labelled blocks.old base predecessors.old used }
    ensures value { result ≡ link_d name (parts_at items.now first count) }
    ensures link_held { LinkHeld (parts_at items.now first count) first base used blocks.old
        blocks.new predecessors.old predecessors.new result }
{
    let leading = labels::leading_labels(items, first, count);
    let labels = Labels {
        names: &labels[..labelled],
        leading,
    };
    let n = close::link_blocks(items, first, count, name, labels, blocks, base)?;
    let next = enter::enter_blocks(blocks, base, n as u32, predecessors, used);
    Ok(Linked {
        blocks: n,
        predecessors: next - used,
    })
}
