// The functions of a text: parse and parse_function of bril-lib/src/parser.rs, with Unit of ir.rs.
#![tactic(auto)]

mod build;
pub mod columns;
pub mod header;
pub mod known;
mod rows;
pub mod sizes;

ghost use Rattle.std.specs.Prelude.{◌≡◌, ◌≤◌, leb, length};
ghost use Rattle.lexer.specs.Decoded.{tokens_of};
ghost use Rattle.body.specs.Room.{Within};
ghost use Rattle.utils.specs.Limits.{most_functions};
ghost use Rattle.functions.specs.Columns.{table_size};
ghost use Rattle.functions.specs.Known.{types_after};
ghost use Rattle.functions.specs.Functions.{function_d, program_d};
ghost use Rattle.functions.specs.Rows.{known_from};
ghost use Rattle.functions.specs.Laid.{AllFit};
ghost use Rattle.functions.specs.Answer.{Room, LongSlices, SameSlices, held};
ghost use Rattle.functions.specs.Answer.{function_read, FunctionHeld, program_read, Held};

use parser::{Refusal, types};
use pieces::{Identifier, kinds};

// The slices that a text's functions go to: the header table, items, arguments of calls, blocks and predecessors.
#[derive(Drop)]
pub struct UnitSlices<'a> {
    pub functions: &'a mut [u32],
    pub items: &'a mut [u32],
    pub arguments: &'a mut [u32],
    pub blocks: &'a mut [u32],
    pub predecessors: &'a mut [u32],
}

// A name, how many formals it has, the cell of its result's type, its function type's number, and the index behind the
// brace.
#[derive(Clone, Copy)]
pub struct Head {
    pub name: Identifier,
    pub formals: usize,
    pub ret: u32,
    pub ty: u32,
    pub next: usize,
}

// How much of each slice is used.
#[derive(Clone, Copy)]
pub struct Counts {
    pub functions: usize,
    pub items: usize,
    pub arguments: usize,
    pub blocks: usize,
    pub predecessors: usize,
}

// Where to go on behind a body, and how much it takes of each slice.
#[derive(Clone, Copy)]
pub struct Body {
    pub next: usize,
    pub items: usize,
    pub arguments: usize,
    pub blocks: usize,
    pub predecessors: usize,
}

// Where to go on behind a function, how many function types there are, and how much is used of each slice.
#[derive(Clone, Copy)]
pub struct FunctionRead {
    pub next: usize,
    pub types: u32,
    pub counts: Counts,
}

// How many function types there are once this number is given.
#[tactic(auto, unfolding(crate::specs::Known::types_after, utils::specs::Bytes::pick))]
fn types_after(types: u32, ty: u32) -> u32
    requires { types ≤ most_functions }
    ensures { result ≡ types_after types ty }
{
    if ty == types {
        return types + 1;
    }
    types
}

// A function from its name on, stored behind the n that are there.
pub fn parse_function<'a>(
    tokens: &[u32],
    names: &[u32],
    at: usize,
    types: u32,
    n: Counts,
    unit: &mut UnitSlices<'a>,
) -> Result<FunctionRead, Refusal>
    requires { Room (tokens_of tokens.now) at n × (n.functions ≤ most_functions) × (types ≤ n.functions)
        × (table_size ≤ length unit.old.functions.now) × LongSlices unit.old }
    ensures value { result
        ≡ function_read types n (function_d (tokens_of tokens.now) (leb most_functions n.functions)
        (known_from unit.old.functions.now 0 n.functions) types at) }
    ensures function_held { FunctionHeld (tokens_of tokens.now) names.now n
        (held unit.old)
        (held unit.new)
        (function_d (tokens_of tokens.now) (leb most_functions n.functions)
        (known_from unit.old.functions.now 0 n.functions) types at) }
    ensures same { SameSlices unit.old unit.new }
{
    let h = header::parse_header(tokens, at, n.functions, types, unit.functions)?;
    let void = h.ret == types::VOID;
    let b = build::build(tokens, h.next, void, at, n, unit)?;
    rows::put_row(unit.functions, tokens, names, at, n, h, b);
    Ok(FunctionRead {
        next: b.next,
        types: types_after(types, h.ty),
        counts: rows::counts_after(n, b),
    })
}

// The functions of a text, from its first token on.
pub fn parse<'a>(
    tokens: &[u32],
    names: &[u32],
    unit: &mut UnitSlices<'a>,
) -> Result<Counts, Refusal>
    requires { Within (tokens_of tokens.now) 0 × (table_size ≤ length unit.old.functions.now)
        × LongSlices unit.old }
    ensures value { result ≡ program_read (program_d (tokens_of tokens.now)) }
    ensures held { Held (tokens_of tokens.now) names.now
        (program_d (tokens_of tokens.now)).functions
        (held unit.old)
        (held unit.new)
        (program_d (tokens_of tokens.now)).end }
    ensures all_fit { AllFit (program_d (tokens_of tokens.now)) }
    ensures same { SameSlices unit.old unit.new }
{
    let mut at: usize = 0;
    let mut types: u32 = 0;
    let mut n = Counts {
        functions: 0,
        items: 0,
        arguments: 0,
        blocks: 0,
        predecessors: 0,
    };
    loop {
        let t = lexer::token_at(tokens, at);
        if t.kind == kinds::END_OF_FILE {
            unit.functions[0] = n.functions as u32;
            return Ok(n);
        }
        let read = parse_function(tokens, names, at, types, n, unit)?;
        at = read.next;
        types = read.types;
        n = read.counts;
    }
}
