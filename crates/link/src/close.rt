// A function's items, cut into blocks.
ghost use Rattle.std.specs.Prelude.{◌≡◌, ◌+◌, ◌-◌, ◌*◌, ◌≤◌, ◌<◌, length};
ghost use Rattle.body.specs.Records.{record_at, parts_at};
ghost use Rattle.link.specs.Blocks.{blocks_of};
ghost use Rattle.link.specs.Edges.{resolve_d};
ghost use Rattle.link.specs.Steps.{goes_d, run, put_goes, added_d, added_cells, Cut, numbered_by, ClosedHeld};
ghost use Rattle.link.specs.Steps.{blocks_size};

use crate::Goes;
use crate::labels::Labels;
use body::kinds;
use graph::BlockRecord;
use graph::blocks::put_block;
use parser::Refusal;
use utils::numbers;

// Where the operations from the item `from` on end: at a label, or behind the last item.
fn block_end(items: &[u32], from: usize, end: usize) -> usize
    requires { (from ≤ end) × (end * 8 ≤ length items.now) }
    ensures { (result ≡ from + run (parts_at items.now from (end - from))) × (result ≤ end) }
{
    for i in from..end {
        let r = body::records::record_at(items, i);
        if r.kind == kinds::LABEL {
            return i;
        }
    }
    end
}

// The block of the operations from `from` to before `stop` becomes record k, but for what enters it.
fn close_block(
    items: &[u32],
    from: usize,
    stop: usize,
    labels: Labels,
    blocks: &mut [u32],
    k: usize,
) -> Result<Goes, Refusal>
    requires { (from < stop) × (stop ≤ 3072) × (stop * 8 ≤ length items.now) × (k * 8 + 8 ≤ length blocks.old) }
    ensures { (result ≡ goes_d labels.entry.leading labels.entry.names.now
        (record_at items.now (stop - 1)))
        × (blocks.new ≡ put_goes blocks.old k from (stop - from) result) }
{
    let r = body::records::record_at(items, stop - 1);
    let goes = labels.resolve(r)?;
    let b = BlockRecord {
        first: from as u32,
        operations: (stop - from) as u32,
        successors: goes.count,
        to: goes.to,
        other: goes.other,
        entries: 0,
        predecessors: 0,
        dead: 0,
    };
    put_block(blocks, k, b);
    Ok(goes)
}

// The block of the operations from `from` to before `stop` becomes record k. The record after it, or `empty` where
// there are no operations.
#[tactic(auto, unfolding(crate::specs::Steps::added_d, crate::specs::Steps::added_cells, utils::specs::Bytes::pick))]
fn add_block(
    items: &[u32],
    from: usize,
    stop: usize,
    empty: Refusal,
    labels: Labels,
    blocks: &mut [u32],
    k: usize,
) -> Result<usize, Refusal>
    requires { (from ≤ stop) × (stop ≤ 3072) × (stop * 8 ≤ length items.now)
        × (blocks_size ≤ length blocks.old) × (from < stop → k < 1024) }
    ensures value { result ≡ added_d labels.entry.leading labels.entry.names.now items.now from stop empty k }
    ensures blocks_after { blocks.new ≡ added_cells labels.entry.leading labels.entry.names.now items.now
        from stop blocks.old k }
{
    if stop == from {
        return Err(empty);
    }
    close_block(items, from, stop, labels, blocks, k)?;
    Ok(k + 1)
}

// A function's blocks from the record `base` on, but for what enters them. How many they are, or 22 or 14.
pub fn link_blocks(
    items: &[u32],
    first: usize,
    count: usize,
    name: usize,
    labels: Labels,
    blocks: &mut [u32],
    base: usize,
) -> Result<usize, Refusal>
    requires { Cut items.now first count labels.names.now labels.leading blocks.old base }
    ensures value { result ≡ numbered_by (blocks_of (parts_at items.now first count))
        (resolve_d name (blocks_of (parts_at items.now first count))) }
    ensures closed_held { ClosedHeld (blocks_of (parts_at items.now first count)) first base
        blocks.old blocks.new result }
{
    let end = first + count;
    let empty = parser::refuse(numbers::EMPTY_BLOCK, name);
    let mut from = first + labels.leading;
    let mut k = base;
    loop {
        let stop = block_end(items, from, end);
        k = add_block(items, from, stop, empty, labels, blocks, k)?;
        if stop == end {
            return Ok(k - base);
        }
        from = stop + 1;
    }
}
