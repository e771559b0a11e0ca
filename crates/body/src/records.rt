// Items and their cells.
ghost use Rattle.std.specs.Prelude.{◌≡◌, ◌+◌, ◌*◌, ◌≤◌, ◌<◌, length};
ghost use Rattle.std.proofs.lemmas.List.Edits.{sets};
ghost use Rattle.parser.specs.Runs.{type_cell};
ghost use Rattle.body.specs.Body.{operation_token};
ghost use Rattle.body.specs.Records.{first_cell, second_cell, last_of, item_record, record_by, operation_record};
ghost use Rattle.body.specs.Records.{record_cells, record_at};
ghost use Rattle.body.specs.declared.Last.TheVariants as L;

use crate::{ITEM_CELLS, ItemRecord, Last, kinds};
use parser::runs::type_cell;
use parser::{Operation, Variable};
use pieces::Identifier;
use utils::{cell_at, put_cells};

fn first_cell(last: Last) -> u32
    ensures { result ≡ first_cell last }
{
    match last {
        Last::Name(x, _) => x.0,
        Last::Labels { then: l, .. } => l.0,
        Last::Run { first, .. } => first,
    }
}

fn second_cell(last: Last) -> u32
    ensures { result ≡ second_cell last }
{
    match last {
        Last::Name(_, ty) => ty,
        Last::Labels { els: m, .. } => m.0,
        Last::Run { count, .. } => count,
    }
}

// Stores a record behind n others.
pub fn put_record(items: &mut [u32], n: usize, r: ItemRecord)
    requires { n * 8 + 8 ≤ length items.old }
    ensures { items.new ≡ sets items.old (n * 8) (record_cells r) }
{
    let last = r.last;
    let first = first_cell(last);
    let second = second_cell(last);
    let cells = [
        r.kind, r.token, r.dest.0, r.dty, r.left.0, r.lty, first, second,
    ];
    put_cells(items, n * ITEM_CELLS, &cells);
}

// What two cells hold, by the kind of their record.
#[tactic(auto, unfolding(crate::specs::Records::last_of, utils::specs::Bytes::pick))]
fn last_of(kind: u32, first: u32, second: u32) -> Last
    ensures { result ≡ last_of kind first second }
{
    match kind {
        kinds::CALL | kinds::CALL_INTO => Last::Run {
            first,
            count: second,
        },
        kinds::BRANCH => Last::Labels {
            then: Identifier(first),
            els: Identifier(second),
        },
        _ => Last::Name(Identifier(first), second),
    }
}

// The record at an index, with 0 for every cell past the end. The bound keeps a cell's index a number.
pub fn record_at(items: &[u32], i: usize) -> ItemRecord
    requires { i < 2305843009213693952 }
    ensures { result ≡ record_at items.now i }
{
    let at = i * ITEM_CELLS;
    let kind = cell_at(items, at);
    let token = cell_at(items, at + 1);
    let dest = cell_at(items, at + 2);
    let dty = cell_at(items, at + 3);
    let left = cell_at(items, at + 4);
    let lty = cell_at(items, at + 5);
    let last = last_of(kind, cell_at(items, at + 6), cell_at(items, at + 7));
    ItemRecord {
        kind,
        token,
        dest: Identifier(dest),
        dty,
        left: Identifier(left),
        lty,
        last,
    }
}

// The type of the left operand is 0 until typing writes it.
pub(crate) fn record_of(
    kind: u32,
    token: u32,
    dest: Identifier,
    dty: u32,
    left: Identifier,
    last: Last,
) -> ItemRecord
    ensures { result ≡ item_record kind token dest dty left 0 last }
{
    ItemRecord {
        kind,
        token,
        dest,
        dty,
        left,
        lty: 0,
        last,
    }
}

// An operation with a result; `right` is its right operand.
fn valued_record(
    kind: u32,
    token: u32,
    v: Variable,
    left: Identifier,
    right: Identifier,
) -> ItemRecord
    ensures { result ≡ item_record kind token v.id (type_cell v.ty) left 0 (L.Name right 0) }
{
    let ty = v.ty;
    let dest = v.id;
    record_of(kind, token, dest, type_cell(ty), left, Last::Name(right, 0))
}

// The token that an operation is named by.
fn operation_token(o: Operation) -> usize
    ensures { result ≡ operation_token o }
{
    match o {
        Operation::BinaryOp { token, .. }
        | Operation::UnaryOp { token, .. }
        | Operation::Const(token, _)
        | Operation::Print(token, _)
        | Operation::Nop(token)
        | Operation::Jump(token, _)
        | Operation::Branch { token, .. }
        | Operation::Ret(token)
        | Operation::RetValue(token, _) => token,
    }
}

// Its record; `w` is the token's cell.
fn record_by(o: Operation, w: u32) -> ItemRecord
    ensures { result ≡ record_by o w }
{
    let none = Identifier(0);
    let nothing = Last::Name(none, 0);
    match o {
        Operation::BinaryOp {
            result: v,
            lhs: x,
            rhs: y,
            ..
        } => valued_record(kinds::BINARY, w, v, x, y),
        Operation::UnaryOp {
            result: v,
            operand: x,
            ..
        } => valued_record(kinds::UNARY, w, v, x, none),
        Operation::Const(_, v) => valued_record(kinds::CONST, w, v, none, none),
        Operation::Print(_, x) => record_of(kinds::PRINT, w, none, 0, x, nothing),
        Operation::Nop(_) => record_of(kinds::NOP, w, none, 0, none, nothing),
        Operation::Jump(_, l) => record_of(kinds::JUMP, w, none, 0, none, Last::Name(l, 0)),
        Operation::Branch {
            cond: x,
            then: l,
            els: m,
            ..
        } => {
            record_of(
                kinds::BRANCH,
                w,
                none,
                0,
                x,
                Last::Labels { then: l, els: m },
            )
        }
        Operation::Ret(_) => record_of(kinds::RET, w, none, 0, none, nothing),
        Operation::RetValue(_, x) => record_of(kinds::RET_VALUE, w, none, 0, x, nothing),
    }
}

#[tactic(auto, unfolding(crate::specs::Records::operation_record))]
pub(crate) fn operation_record(o: Operation) -> ItemRecord
    requires { operation_token o ≤ 4095 }
    ensures { result ≡ operation_record o }
{
    let token = operation_token(o);
    record_by(o, token as u32)
}
