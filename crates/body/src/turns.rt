// One turn of the body's loop: an item and its record, or the closing brace.
ghost use Rattle.std.specs.Prelude.{◌≡◌, ◌+◌, ◌*◌, ◌≤◌, ◌<◌, length, set};
ghost use Rattle.std.proofs.lemmas.List.Edits.{sets};
ghost use Rattle.lexer.specs.Decoded.{tokens_of};
ghost use Rattle.utils.specs.Limits.{most_labels};
ghost use Rattle.body.specs.Room.{items_size, arguments_size};
ghost use Rattle.body.specs.Body.{closes, lacks_ret};
ghost use Rattle.body.specs.Records.{items_cells};
ghost use Rattle.body.specs.Turns.{before_number, late_refusal, behind_kind, added, behind_label, label_put, Ready};
ghost use Rattle.body.specs.Turns.{ItemTurned, LabelTurned, Turned};

use crate::{Before, Closed, Going, ItemRead, Last, Turn, item, kinds, records};
use parser::Refusal;
use pieces::Identifier;
use utils::numbers;

// Right behind a label an operation has to stand.
#[tactic(auto, unfolding(crate::specs::Body::closes, utils::specs::Bytes::pick))]
fn closes_body(before: Before, kind: u32) -> bool
    ensures { result ≡ closes (before_number before) kind }
{
    before != Before::Label && kind == pieces::kinds::RIGHT_BRACE
}

// A void function's block gets a `ret` where it has no terminator.
#[tactic(auto, unfolding(crate::specs::Body::lacks_ret, utils::specs::Bytes::pick))]
fn lacks_ret(void: bool, before: Before) -> bool
    ensures { result ≡ lacks_ret void (before_number before) }
{
    void && before == Before::Operation
}

#[tactic(auto, unfolding(crate::specs::Turns::behind_kind, utils::specs::Bytes::pick))]
fn behind_kind(kind: u32) -> Before
    ensures { result ≡ behind_kind kind }
{
    if kinds::JUMP <= kind {
        return Before::Terminator;
    }
    Before::Operation
}

// The next free item behind the `ret` that is lacking, or where none is.
#[tactic(auto, unfolding(crate::specs::Turns::added, utils::specs::Bytes::pick, crate::specs::Records::items_cells, crate::specs::Records::record_of, crate::specs::Records::operation_record))]
fn add_ret(items: &mut [u32], n: usize, lacks: bool, last: u32) -> usize
    requires { n * 8 + 8 ≤ length items.old }
    ensures value { result ≡ n + length (added lacks last) }
    ensures after { items.new ≡ sets items.old (n * 8) (items_cells 0 (added lacks last)) }
{
    if lacks {
        let none = Identifier(0);
        let r = records::record_of(kinds::RET, last, none, 0, none, Last::Name(none, 0));
        records::put_record(items, n, r);
        return n + 1;
    }
    n
}

// Why an operation behind a terminator is refused: for a reason of its own, or with 12 once it is parsed.
fn refuse(read: Result<ItemRead, Refusal>) -> Refusal
    ensures { result ≡ late_refusal read }
{
    match read {
        Ok(read) => parser::refuse(numbers::NO_LABEL_FIRST, read.item.token as usize),
        Err(e) => e,
    }
}

fn item_turn(
    tokens: &[u32],
    s: Going,
    items: &mut [u32],
    arguments: &mut [u32],
) -> Result<Turn, Refusal>
    requires { Ready (tokens_of tokens.now) s × (items_size ≤ length items.old)
        × (arguments_size ≤ length arguments.old) }
    ensures { ItemTurned (tokens_of tokens.now) s items.old items.new
        arguments.old arguments.new result }
{
    let read = item::parse_item(tokens, s.at, arguments, s.arguments);
    if s.before == Before::Terminator {
        return Err(refuse(read));
    }
    let ItemRead {
        item,
        arguments: then,
        next,
    } = read?;
    records::put_record(items, s.items, item);
    Ok(Turn::On(Going {
        at: next,
        items: s.items + 1,
        arguments: then,
        labels: s.labels,
        before: behind_kind(item.kind),
        last: item.token,
    }))
}

// A label's record, behind the `ret` that the block before it may lack; the label is stored behind the others.
#[tactic(auto, using(crate::proofs::Turning::added_short))]
fn add_label(
    void: bool,
    s: Going,
    label: Identifier,
    next: usize,
    items: &mut [u32],
    labels: &mut [u32],
) -> Going
    requires { (s.at ≤ 4095) × (s.items * 8 + 24 ≤ items_size) × (items_size ≤ length items.old)
        × (s.labels < most_labels) × (most_labels ≤ length labels.old) }
    ensures value { result ≡ behind_label void s next }
    ensures after { items.new ≡ label_put void s label items.old }
    ensures labels_after { labels.new ≡ set labels.old s.labels label.0 }
{
    let count = s.labels;
    let n = add_ret(items, s.items, lacks_ret(void, s.before), s.last);
    let token = s.at as u32;
    let none = Identifier(0);
    let r = records::record_of(kinds::LABEL, token, none, 0, none, Last::Name(label, 0));
    records::put_record(items, n, r);
    labels[count] = label.0;
    Going {
        at: next,
        items: n + 1,
        arguments: s.arguments,
        labels: count + 1,
        before: Before::Label,
        last: s.last,
    }
}

// A label closes the block before it.
fn label_turn(
    tokens: &[u32],
    void: bool,
    s: Going,
    items: &mut [u32],
    labels: &mut [u32],
) -> Result<Turn, Refusal>
    requires { Ready (tokens_of tokens.now) s × (items_size ≤ length items.old)
        × (most_labels ≤ length labels.old) }
    ensures { LabelTurned (tokens_of tokens.now) void s items.old items.new
        labels.old labels.new result }
{
    let (label, next) = parser::labels::parse_label(tokens, s.at, labels, s.labels)?;
    Ok(Turn::On(add_label(void, s, label, next, items, labels)))
}

pub(crate) fn turn(
    tokens: &[u32],
    void: bool,
    s: Going,
    items: &mut [u32],
    arguments: &mut [u32],
    labels: &mut [u32],
) -> Result<Turn, Refusal>
    requires { Ready (tokens_of tokens.now) s × (items_size ≤ length items.old)
        × (arguments_size ≤ length arguments.old)
        × (most_labels ≤ length labels.old) }
    ensures { Turned (tokens_of tokens.now) void s items.old items.new
        arguments.old arguments.new labels.old labels.new result }
{
    let t = lexer::token_at(tokens, s.at);
    if closes_body(s.before, t.kind) {
        let n = add_ret(items, s.items, lacks_ret(void, s.before), s.last);
        return Ok(Turn::Done(Closed {
            next: t.next,
            items: n,
            arguments: s.arguments,
            labels: s.labels,
        }));
    }
    if t.kind == pieces::kinds::LABEL {
        return label_turn(tokens, void, s, items, labels);
    }
    item_turn(tokens, s, items, arguments)
}
