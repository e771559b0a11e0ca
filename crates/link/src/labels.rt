// The labels of a function and the blocks that they name: the Rust's LabelsToBlocks.
ghost use Rattle.std.specs.Prelude.{◌≡◌, ◌+◌, ◌*◌, ◌≤◌, ◌<◌, length};
ghost use Rattle.body.specs.Records.{parts_at};
ghost use Rattle.utils.specs.Limits.{most_labels};
ghost use Rattle.link.specs.Table.{leading, block_of, label_place};
ghost use Rattle.link.specs.Steps.{block_id, found_of, one_d, two_d, goes_d};
ghost use Rattle.link.specs.Edges.{missing};

use crate::Goes;
use body::{ItemRecord, Last, kinds};
use graph::BlockId;
use parser::Refusal;
use pieces::Identifier;
use utils::numbers;

// How many labels stand before the first operation: each of them names block 0.
pub fn leading_labels(items: &[u32], first: usize, count: usize) -> usize
    requires { (first + count) * 8 ≤ length items.now }
    ensures { (result ≡ leading (parts_at items.now first count)) × (result ≤ count) }
{
    for i in 0..count {
        let r = body::records::record_at(items, first + i);
        if r.kind != kinds::LABEL {
            return i;
        }
    }
    count
}

// 14: the label names no block.
fn unknown(token: usize, name: Identifier) -> Refusal
    ensures { result ≡ missing token name.0 }
{
    Refusal {
        number: numbers::MISSING_TARGET,
        token,
        wanted: 0,
        found: 0,
        name,
    }
}

// Where a block leads whose last operation is none that goes on.
const NOWHERE: Goes = Goes {
    count: 0,
    to: BlockId(0),
    other: BlockId(0),
};

// A function's labels in text order, and how many of them lead: those stand before its first operation, and name
// block 0.
#[derive(Clone, Copy)]
pub struct Labels<'a> {
    pub names: &'a [u32],
    pub leading: usize,
    ghost few: { length names.now ≤ most_labels },
}

impl<'a> Labels<'a> {
    // The block that label i opens or names.
    #[tactic(auto, unfolding(crate::specs::Table::block_of, utils::specs::Bytes::pick))]
    fn block_of(self, i: usize) -> BlockId
        requires { i < length self.names.now }
        ensures { result ≡ block_id (block_of self.entry.leading i) }
    {
        if i < self.leading {
            return BlockId(0);
        }
        let k = (i + 1 - self.leading) as u32;
        BlockId(k)
    }

    // The block of the first label of this name, in text order.
    fn get(self, name: Identifier) -> Option<BlockId>
        ensures { result ≡ found_of (label_place self.entry.leading 0 self.entry.names.now name.0) }
    {
        let i = self.names.iter().position(|label| *label == name.0)?;
        Some(self.block_of(i))
    }

    #[tactic(auto, unfolding(crate::specs::Steps::one_d, crate::specs::Steps::then_found))]
    fn resolve_one(self, token: usize, next: Identifier) -> Result<Goes, Refusal>
        ensures { result ≡ one_d self.entry.leading self.entry.names.now token next.0 }
    {
        let to = self.get(next).ok_or(unknown(token, next))?;
        Ok(Goes {
            count: 1,
            to,
            other: BlockId(0),
        })
    }

    #[tactic(auto, unfolding(crate::specs::Steps::two_d, crate::specs::Steps::then_found))]
    fn resolve_two(self, token: usize, then: Identifier, els: Identifier) -> Result<Goes, Refusal>
        ensures { result ≡ two_d self.entry.leading self.entry.names.now token then.0 els.0 }
    {
        let to = self.get(then).ok_or(unknown(token, then))?;
        let other = self.get(els).ok_or(unknown(token, els))?;
        Ok(Goes {
            count: 2,
            to,
            other,
        })
    }

    // Where a block leads whose last operation has this record.
    #[tactic(auto, unfolding(crate::specs::Steps::goes_d, crate::specs::Steps::leads_by, utils::specs::Bytes::pick))]
    pub fn resolve(self, r: ItemRecord) -> Result<Goes, Refusal>
        ensures { result ≡ goes_d self.entry.leading self.entry.names.now r }
    {
        let token = r.token as usize;
        match r.last {
            Last::Name(next, _) if r.kind == kinds::JUMP => self.resolve_one(token, next),
            Last::Labels { then, els } => self.resolve_two(token, then, els),
            _ => Ok(NOWHERE),
        }
    }
}
