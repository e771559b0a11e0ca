// The edges that enter a block.
ghost use Rattle.std.specs.Prelude.{◌≡◌, [], ◌+◌, ◌-◌, ◌*◌, ◌≤◌, ◌<◌, length, set};
ghost use Rattle.std.proofs.lemmas.List.Edits.{sets};
ghost use Rattle.utils.specs.Bytes.{pick};
ghost use Rattle.utils.specs.Limits.{most_blocks};
ghost use Rattle.link.specs.Edges.{entering, predecessors};
ghost use Rattle.graph.specs.Records.{block_at, cells_of, recorded, row_of};
ghost use Rattle.link.specs.Steps.{enters_d, links_from, entries_from, mark_of, entered_by, put_entered, blocks_size};
ghost use Rattle.link.specs.Steps.{predecessors_size};

use graph::BlockId;
use graph::blocks::{block_at, put_block};
use graph::successors::load;
use utils::limits;

// Whether successor i of a block is block j.
#[tactic(auto, unfolding(crate::specs::Steps::enters_d, utils::specs::Bytes::pick))]
fn enters(count: u32, i: u32, target: BlockId, j: BlockId) -> bool
    ensures { result ≡ enters_d count i target.0 j.0 }
{
    i < count && target.0 == j.0
}

// Block k goes to the place `at`, if it is a source. The place after it.
#[tactic(auto, unfolding(utils::specs::Bytes::pick))]
fn put_source(sources: &mut [u32], at: usize, k: BlockId, is: bool) -> usize
    requires { at + pick is 1 0 ≤ length sources.old }
    ensures { (result ≡ at + pick is 1 0)
        × (sources.new ≡ pick is (set sources.old at k.0) sources.old) }
{
    if is {
        sources[at] = k.0;
        return at + 1;
    }
    at
}

// Block k goes to the place `used` for each edge from it to block j.
fn enter_from(
    succs: &[[u32; 2]; limits::BLOCKS],
    counts: &[u32; limits::BLOCKS],
    k: BlockId,
    j: BlockId,
    sources: &mut [u32],
    used: usize,
) -> usize
    requires { (k.0 < most_blocks)
        × (used + length (entering j.0 k.0 (row_of succs.now counts.now k.0) []) ≤ length sources.old) }
    ensures { (result ≡ used
        + length (entering j.0 k.0 (row_of succs.now counts.now k.0) []))
        × (sources.new ≡ sets sources.old used
        (entering j.0 k.0 (row_of succs.now counts.now k.0) [])) }
{
    let i = k.0 as usize;
    let count = counts[i];
    let to = BlockId(succs[i][0]);
    let other = BlockId(succs[i][1]);
    let first = enters(count, 0, to, j);
    let second = enters(count, 1, other, j);
    let next = put_source(sources, used, k, first);
    put_source(sources, next, k, second)
}

// The sources of the edges that enter block j, from the place `used` on. The place after them.
fn enter_edges(
    succs: &[[u32; 2]; limits::BLOCKS],
    counts: &[u32; limits::BLOCKS],
    n: u32,
    j: BlockId,
    sources: &mut [u32],
    used: usize,
) -> usize
    requires { (n ≤ most_blocks)
        × (used + length (predecessors j.0 0 (links_from (row_of succs.now counts.now) 0 n))
        ≤ length sources.old) }
    ensures { (result ≡ used
        + length (predecessors j.0 0 (links_from (row_of succs.now counts.now) 0 n)))
        × (sources.new ≡ sets sources.old used
        (predecessors j.0 0 (links_from (row_of succs.now counts.now) 0 n))) }
{
    let mut here = used;
    for k in 0..n {
        here = enter_from(succs, counts, BlockId(k), j, sources, here);
    }
    here
}

// Set where it isn't block 0 and has no predecessor.
#[tactic(auto, unfolding(utils::specs::Bytes::pick))]
fn dead_mark(j: BlockId, count: usize) -> u32
    ensures { result ≡ mark_of j.0 count }
{
    u32::from(j.0 != 0 && count == 0)
}

// Block j, whose record is record i, gets its predecessors and its dead mark.
fn put_entries(blocks: &mut [u32], i: usize, j: BlockId, used: usize, count: usize)
    requires { (i ≤ 1024) × (i * 8 + 8 ≤ length blocks.old) × (used ≤ 2048) × (count ≤ 2048) }
    ensures { blocks.new ≡ sets blocks.old (i * 8)
        (cells_of (entered_by (block_at blocks.old i) j.0 used count)) }
{
    let mut b = block_at(blocks, i);
    b.entries = used as u32;
    b.predecessors = count as u32;
    b.dead = dead_mark(j, count);
    put_block(blocks, i, b);
}

// The predecessors of each of n blocks, and its record with them. The place after them.
fn enter_all(
    succs: &[[u32; 2]; limits::BLOCKS],
    counts: &[u32; limits::BLOCKS],
    blocks: &mut [u32],
    base: usize,
    n: u32,
    sources: &mut [u32],
    used: usize,
) -> usize
    requires { (n ≤ most_blocks) × (base + n ≤ 1024) × (blocks_size ≤ length blocks.old)
        × (used + length (entries_from 0 (links_from (row_of succs.now counts.now) 0 n) n) ≤ 2048)
        × (predecessors_size ≤ length sources.old) }
    ensures value { result ≡ used
        + length (entries_from 0 (links_from (row_of succs.now counts.now) 0 n) n) }
    ensures blocks_after { blocks.new
        ≡ put_entered 0 used (links_from (row_of succs.now counts.now) 0 n)
        blocks.old base n }
    ensures sources_after { sources.new ≡ sets sources.old used
        (entries_from 0 (links_from (row_of succs.now counts.now) 0 n) n) }
{
    let mut here = used;
    for j in 0..n {
        let i = base + j as usize;
        let next = enter_edges(succs, counts, n, BlockId(j), sources, here);
        put_entries(blocks, i, BlockId(j), here, next - here);
        here = next;
    }
    here
}

// The same of the n blocks from the record `base` on, whose successors go to rows first.
pub fn enter_blocks(
    blocks: &mut [u32],
    base: usize,
    n: u32,
    sources: &mut [u32],
    used: usize,
) -> usize
    requires { (n ≤ most_blocks) × (base + n ≤ 1024) × (blocks_size ≤ length blocks.old)
        × (used + length (entries_from 0 (links_from (recorded blocks.old base) 0 n) n) ≤ 2048)
        × (predecessors_size ≤ length sources.old) }
    ensures value { result ≡ used + length (entries_from 0 (links_from (recorded blocks.old base) 0 n) n) }
    ensures blocks_after { blocks.new ≡ put_entered 0 used (links_from (recorded blocks.old base) 0 n)
        blocks.old base n }
    ensures sources_after { sources.new ≡ sets sources.old used
        (entries_from 0 (links_from (recorded blocks.old base) 0 n) n) }
{
    let mut succs = [[0u32; 2]; limits::BLOCKS];
    let mut counts = [0u32; limits::BLOCKS];
    load(blocks, base as u32, n, &mut succs, &mut counts);
    enter_all(&succs, &counts, blocks, base, n, sources, used)
}
