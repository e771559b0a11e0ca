// A record's operation, a block's, and whether the block ends as it should.
ghost use Rattle.std.specs.Prelude.{◌≡◌, List, ℕ, ◌+◌, ◌≤◌};
ghost use Rattle.lexer.specs.Decoded.{tokens_of};
ghost use Rattle.sema.specs.Symbols.{typed};
ghost use Rattle.sema.specs.Typing.{type_plain_d, type_item_d};
ghost use Rattle.sema.specs.Items.{operation_of, item_of, item_at};
ghost use Rattle.sema.specs.Globals.{globals_in};
ghost use Rattle.sema.specs.Blocks.{items_at, type_end_d, type_block_d};

use crate::{Arguments, Sema, operations};
use body::records::record_at;
use body::{ItemRecord, Last, kinds};
use lexer::token_at;
use parser::Refusal;
use pieces::Identifier;
use utils::numbers;

// The kinds from 9 to 12 end a block.
fn expect_terminator(items: &[u32], first: u32, count: u32) -> Result<(), Refusal>
    ensures { (t args : List ℕ) → typed t result ≡ type_end_d t (items_at items.now args first count) }
{
    if count == 0 {
        return Ok(());
    }
    let i = first as usize + count as usize - 1;
    let last = record_at(items, i);
    if last.kind < kinds::JUMP || kinds::RET_VALUE < last.kind {
        return Err(parser::refuse(numbers::NO_TERMINATOR, last.token as usize));
    }
    Ok(())
}

impl<'a> Sema<'a> {
    // A record that is neither a call nor a `br`; x is the name in its last two cells. Labels, and operations that look
    // nothing up and enter nothing, are fine.
    #[tactic(auto, using(crate::proofs::Records::cell_of, crate::proofs::Records::plain_other), unfolding(crate::specs::Typing::type_plain_d, crate::specs::Items::operation_of, utils::specs::Bytes::pick))]
    fn analyze_plain(self, table: &mut [u32], r: ItemRecord, x: Identifier) -> Result<(), Refusal>
        ensures { typed table.new result
            ≡ type_plain_d (tokens_of self.entry.tokens.now) self.entry.ret table.old (operation_of r x) }
    {
        let w = r.token as usize;
        let word = token_at(self.tokens, w).kind;
        match r.kind {
            kinds::BINARY => operations::analyze_bin_op(table, word, w, r.dest, r.dty, r.left, x),
            kinds::UNARY => operations::analyze_unary_op(table, word, w, r.dest, r.dty, r.left),
            kinds::CONST => operations::analyze_const(table, word, w, r.dest, r.dty),
            kinds::RET => operations::analyze_ret(self.ret, w),
            kinds::RET_VALUE => operations::analyze_ret_value(table, self.ret, w, r.left),
            _ => Ok(()),
        }
    }

    // A call with a result is of kind 6.
    fn analyze_record(self, table: &mut [u32], r: ItemRecord) -> Result<(), Refusal>
        ensures { typed table.new result
            ≡ type_item_d (tokens_of self.entry.tokens.now)
            (globals_in self.entry.rows.now self.entry.functions) self.entry.ret table.old
            (item_of r self.entry.arguments.now) }
    {
        let w = r.token as usize;
        let callee = r.left;
        match r.last {
            Last::Name(x, _) => self.analyze_plain(table, r, x),
            Last::Labels { .. } => Ok(()),
            Last::Run { first, count } => {
                let run = Arguments { first, count };
                if r.kind == kinds::CALL_INTO {
                    return self.analyze_call_into(table, w, r.dest, r.dty, callee, run);
                }
                self.analyze_call(table, w, callee, run)
            }
        }
    }

    fn analyze_op(self, table: &mut [u32], i: usize) -> Result<(), Refusal>
        requires { i ≤ 8589934592 }
        ensures { typed table.new result
            ≡ type_item_d (tokens_of self.entry.tokens.now)
            (globals_in self.entry.rows.now self.entry.functions) self.entry.ret table.old
            (item_at self.entry.items.now self.entry.arguments.now i) }
    {
        let r = record_at(self.items, i);
        self.analyze_record(table, r)
    }

    pub(crate) fn analyze_block(
        self,
        table: &mut [u32],
        first: u32,
        count: u32,
    ) -> Result<(), Refusal>
        ensures { typed table.new result
            ≡ type_block_d (tokens_of self.entry.tokens.now)
            (globals_in self.entry.rows.now self.entry.functions) self.entry.ret table.old
            (items_at self.entry.items.now self.entry.arguments.now first count) }
    {
        for i in 0..count {
            let at = first as usize + i as usize;
            self.analyze_op(table, at)?;
        }
        expect_terminator(self.items, first, count)
    }
}
