// The order in which a function's blocks are typed, from analysis/src/cfg.rs: RPOWorklist.
//
// A caller lends the block records of a text, eight cells each (`BlockRecord`). The caller says which record is that of
// the function's first block, and how many blocks the function has. Nothing is asked of the cells: specs/Records.antt
// says which graph any cells are.
#![tactic(auto)]

pub mod blocks;
mod place;
pub mod successors;
mod walk;

ghost use Rattle.std.specs.Prelude.{◌≡◌};
ghost use Rattle.std.proofs.lemmas.List.Edits.{sets};
ghost use Rattle.graph.specs.Walk.{met_blocks, block_order};
ghost use Rattle.graph.specs.Records.{recorded, at_most256};
ghost use Rattle.graph.specs.Worklist.{worklist, popped, flagged};

use utils::limits;

// Cells of a block's record.
pub const BLOCK_CELLS: usize = 8;

// A block of a function, by its number in it: the Rust's index.
#[derive(Clone, Copy)]
pub struct BlockId(pub u32);

// A block as it is recorded: its first operation, as an index among all items, and how many it has; how many successors
// it has, and the pair of them; its first predecessor, as an index among all predecessors, and how many; and 1 where it
// is dead, else 0.
#[derive(Clone, Copy)]
pub struct BlockRecord {
    pub first: u32,
    pub operations: u32,
    pub successors: u32,
    pub to: BlockId,
    pub other: BlockId,
    pub entries: u32,
    pub predecessors: u32,
    pub dead: u32,
}

// The Rust's worklist once every block was pushed. The order stands in an array of the caller's; the worklist says how
// many of its blocks were taken, and goes in and comes back by value.
#[derive(Clone, Copy)]
pub struct RPOWorklist {
    pub taken: u32,
    pub blocks: u32,
}

impl RPOWorklist {
    // Orders a function's blocks.
    pub fn new(
        blocks: &[u32],
        first: u32,
        count: u32,
        order: &mut [u32; limits::BLOCKS],
    ) -> RPOWorklist
        ensures value { result ≡ worklist 0 (at_most256 count) }
        ensures order_after { order.new
            ≡ sets order.old 0 (block_order (recorded blocks.now first) (at_most256 count)) }
    {
        let n = successors::at_most_256(count);
        let mut state = walk::State::new();
        state.walk(blocks, first, n);
        let placed = place::put_left(&state.left, state.at, order);
        place::put_unmet(&state.met, n, order, placed);
        RPOWorklist {
            taken: 0,
            blocks: n,
        }
    }

    // The next block, and the worklist after it.
    #[tactic(auto, unfolding(crate::specs::Worklist::popped, utils::specs::Bytes::pick))]
    pub fn pop(self, order: &[u32; limits::BLOCKS]) -> Option<(BlockId, RPOWorklist)>
        ensures value { result ≡ popped order.now self }
    {
        if self.blocks <= self.taken {
            return None;
        }
        let block = *order.get(self.taken as usize)?;
        let rest = RPOWorklist {
            taken: self.taken + 1,
            blocks: self.blocks,
        };
        Some((BlockId(block), rest))
    }
}

// Which blocks a path of edges leads to from block 0: a flag for each block, 1 or 0.
pub fn met_blocks(blocks: &[u32], first: u32, count: u32, met: &mut [u8; limits::BLOCKS])
    ensures { met.new
        ≡ sets met.old 0 (met_blocks (recorded blocks.now first) (at_most256 count)) }
{
    let n = successors::at_most_256(count);
    let mut state = walk::State::new();
    state.walk(blocks, first, n);
    place::put_flags(&state.met, n, met);
}

// Whether a block's flag is set.
#[tactic(auto, unfolding(crate::specs::Worklist::flagged, utils::specs::Bytes::pick))]
pub fn is_met(met: &[u8; limits::BLOCKS], block: BlockId) -> bool
    ensures { result ≡ flagged met.now block.0 }
{
    met.get(block.0 as usize) == Some(&1)
}
