// The successors of a function's blocks, from block records to rows of two cells and a count.
ghost use Rattle.std.specs.Prelude.{◌≡◌, ◌≤◌, length};
ghost use Rattle.utils.specs.Limits.{most_blocks};
ghost use Rattle.graph.specs.Records.{Loaded, at_most256};

use crate::blocks::block_at;
use utils::limits;

// How many blocks are looked at.
#[tactic(auto, unfolding(crate::specs::Records::at_most256, utils::specs::Bytes::pick))]
pub fn at_most_256(count: u32) -> u32
    ensures { (result ≡ at_most256 count) × (result ≤ most_blocks) }
{
    count.min(limits::MOST_BLOCKS)
}

// The first n blocks from the record `first` on.
pub fn load(
    blocks: &[u32],
    first: u32,
    n: u32,
    succs: &mut [[u32; 2]; limits::BLOCKS],
    counts: &mut [u32; limits::BLOCKS],
)
    requires { (n ≤ most_blocks) × (length succs.old ≡ most_blocks) × (length counts.old ≡ most_blocks) }
    ensures { Loaded blocks.now first n succs.old succs.new
        counts.old counts.new }
{
    for k in 0..n as usize {
        let b = block_at(blocks, first as usize + k);
        succs[k] = [b.to.0, b.other.0];
        counts[k] = b.successors;
    }
}
