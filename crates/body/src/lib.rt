// A function's body: parse_function_body of bril-lib/src/parser.rs. Its items go to their records as they are read.
#![tactic(auto)]

mod item;
pub mod kinds;
pub mod records;
mod turns;

ghost use Rattle.std.specs.Prelude.{◌≡◌, ◌*◌, ◌≤◌, length};
ghost use Rattle.lexer.specs.Decoded.{tokens_of};
ghost use Rattle.utils.specs.Limits.{most_labels};
ghost use Rattle.body.specs.Room.{Within, items_size, arguments_size};
ghost use Rattle.body.specs.Answer.{function_body, body_read, Held};

use parser::Refusal;
use pieces::Identifier;

// Cells of an item's record.
pub const ITEM_CELLS: usize = 8;

// What an item's last two cells hold, by its kind.
#[derive(Clone, Copy)]
pub enum Last {
    // The right operand and its type, the label of a label or a `jmp`, or nothing.
    Name(Identifier, u32),
    // The two labels of a `br`.
    Labels { then: Identifier, els: Identifier },
    // A call's arguments: the first one's index among all, and how many they are.
    Run { first: u32, count: u32 },
}

// An item (docs/INTERFACE.md): the result and the left operand, each with its type, and what its kind has besides.
#[derive(Clone, Copy)]
pub struct ItemRecord {
    pub kind: u32,
    pub token: u32,
    pub dest: Identifier,
    pub dty: u32,
    pub left: Identifier,
    pub lty: u32,
    pub last: Last,
}

// Where to go on behind a body, and how many items, arguments and labels it has.
#[derive(Clone, Copy)]
pub struct Closed {
    pub next: usize,
    pub items: usize,
    pub arguments: usize,
    pub labels: usize,
}

// An item's record, how many arguments there are with its own, and the index to go on at.
#[derive(Clone, Copy)]
pub struct ItemRead {
    pub item: ItemRecord,
    pub arguments: usize,
    pub next: usize,
}

// What stands before an item.
#[derive(Clone, Copy, PartialEq, Eq)]
pub enum Before {
    Brace,
    Label,
    Operation,
    Terminator,
}

// The loop's state: the next token, the next free item and argument, how many labels there are, what stands before,
// and the last operation's token.
#[derive(Clone, Copy)]
pub struct Going {
    pub at: usize,
    pub items: usize,
    pub arguments: usize,
    pub labels: usize,
    pub before: Before,
    pub last: u32,
}

#[derive(Clone, Copy)]
pub enum Turn {
    On(Going),
    // Items and arguments as in `Going`.
    Done(Closed),
}

// From after the opening brace.
pub fn parse_body(
    tokens: &[u32],
    at: usize,
    void: bool,
    items: &mut [u32],
    first: usize,
    arguments: &mut [u32],
    used: usize,
    labels: &mut [u32],
) -> Result<Closed, Refusal>
    requires within { Within (tokens_of tokens.now) at }
    requires first_bound { (first * 4 ≤ at * 3) × (used * 19 ≤ at * 16) }
    requires items_size_in_bounds { (items_size ≤ length items.old) × (arguments_size ≤ length arguments.old)
        × (most_labels ≤ length labels.old) }
    ensures value { result ≡ body_read void (function_body (tokens_of tokens.now) at) }
    ensures held { Held (tokens_of tokens.now) void
        (function_body (tokens_of tokens.now) at).items at first used
        items.old items.new arguments.old arguments.new
        labels.old labels.new (function_body (tokens_of tokens.now) at).end }
{
    let mut s = Going {
        at,
        items: first,
        arguments: used,
        labels: 0,
        before: Before::Brace,
        last: 0,
    };
    loop {
        match turns::turn(tokens, void, s, items, arguments, labels)? {
            Turn::On(next) => {
                s = next;
            }
            Turn::Done(e) => {
                return Ok(Closed {
                    next: e.next,
                    items: e.items - first,
                    arguments: e.arguments - used,
                    labels: e.labels,
                });
            }
        }
    }
}
