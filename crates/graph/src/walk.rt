// The depth-first walk, with the Rust's stack in the place of recursion. An entry of the stack is a block to walk from,
// or, with `LEAVE` added, one to leave: the Rust tells them apart by colour, white and gray.
ghost use Rattle.std.specs.Prelude.{◌≡◌, ◌+◌, ◌<◌, ◌≤◌};
ghost use Rattle.utils.specs.Limits.{most_blocks};
ghost use Rattle.graph.specs.Walk.{walked};
ghost use Rattle.graph.specs.Records.{recorded, row_of};
ghost use Rattle.graph.specs.Frames.{stack, push_one, push_all, Ready, Turned, Holds, SameWalk, unbegun};

use crate::BlockId;
use crate::successors::load;
use utils::limits;

// More than any block's number.
const LEAVE: u32 = limits::MOST_BLOCKS;

// Room for block 0, and for two successors of each block.
const ENTRIES: usize = 2 * limits::BLOCKS + 1;

// What the walk has in hand: the flags, the blocks left, from `at` on, and the first `top` entries of the stack.
// The flags are 1 and 0, and no bools: `met_blocks` promises them so.
#[derive(Drop)]
pub struct State {
    pub met: [u8; limits::BLOCKS],
    pub left: [u32; limits::BLOCKS],
    pub entries: [u32; ENTRIES],
    pub top: usize,
    pub at: usize,
}

impl State {
    // Before the walk: no block is met, and nothing is to be done.
    pub fn new() -> State
        ensures { result ≡ unbegun }
    {
        State {
            met: [0; limits::BLOCKS],
            left: [0; limits::BLOCKS],
            entries: [0; ENTRIES],
            top: 0,
            at: limits::BLOCKS,
        }
    }

    // A block goes on the stack, if it is one of the n.
    #[tactic(auto, unfolding(crate::specs::Frames::push_one, utils::specs::Bytes::pick))]
    fn push(&mut self, n: u32, block: BlockId)
        requires { self.old.top < 513 }
        ensures result_after { stack self.new.entries self.new.top
            ≡ push_one n block.0 (stack self.old.entries self.old.top) }
        ensures upper_bound { self.new.top ≤ self.old.top + 1 }
        ensures others { SameWalk self.old self.new }
    {
        if block.0 < n {
            self.entries[self.top] = block.0;
            self.top += 1;
        }
    }

    // A block's successors go on the stack, the last on top.
    #[tactic(auto, using(crate::proofs::Rows::counted_two))]
    fn push_successors(
        &mut self,
        succs: &[[u32; 2]; limits::BLOCKS],
        counts: &[u32; limits::BLOCKS],
        n: u32,
        block: BlockId,
    )
        requires { (block.0 < most_blocks) × (self.old.top + 2 ≤ 513) }
        ensures result_after { stack self.new.entries self.new.top
            ≡ push_all n (row_of succs.now counts.now block.0) (stack self.old.entries self.old.top) }
        ensures others { SameWalk self.old self.new }
    {
        let i = block.0 as usize;
        let count = counts[i];
        if count == 0 {
            return;
        }
        self.push(n, BlockId(succs[i][0]));
        if count != 1 {
            self.push(n, BlockId(succs[i][1]));
        }
    }

    // One turn of the Rust's loop.
    fn turn(&mut self, succs: &[[u32; 2]; limits::BLOCKS], counts: &[u32; limits::BLOCKS], n: u32)
        requires { Ready n self.old × (0 < self.old.top) }
        ensures { Turned (row_of succs.now counts.now) n self.old self.new }
    {
        let top = self.top - 1;
        let current = self.entries[top];
        if LEAVE <= current {
            self.top = top;
            self.at -= 1;
            self.left[self.at] = current - LEAVE;
            return;
        }
        let block = current as usize;
        if self.met[block] != 0 {
            self.top = top;
            return;
        }
        self.met[block] = 1;
        self.entries[top] = current + LEAVE;
        self.push_successors(succs, counts, n, BlockId(current));
    }

    // The walk from block 0, in place: flags, and the blocks left, at the end of their array.
    pub fn walk(&mut self, blocks: &[u32], first: u32, n: u32)
        requires { (n ≤ most_blocks) × (self.old ≡ unbegun) }
        ensures { Holds (walked (recorded blocks.now first) n) n self.new.met self.new.left self.new.at }
    {
        let mut succs = [[0u32; 2]; limits::BLOCKS];
        let mut counts = [0u32; limits::BLOCKS];
        load(blocks, first, n, &mut succs, &mut counts);
        self.push(n, BlockId(0));
        while 0 < self.top {
            self.turn(&succs, &counts, n);
        }
    }
}
