// One operation, a call with its arguments, as a record.
ghost use Rattle.std.specs.Prelude.{◌≡◌, ◌+◌, ◌*◌, ◌≤◌, length};
ghost use Rattle.std.proofs.lemmas.List.Edits.{sets};
ghost use Rattle.lexer.specs.Decoded.{tokens_of};
ghost use Rattle.parser.specs.Runs.{variables_cells, call_d};
ghost use Rattle.body.specs.Body.{item_d};
ghost use Rattle.body.specs.Room.{Within, arguments_size};
ghost use Rattle.body.specs.Turns.{item_read, ItemHeld, call_read};

use crate::{ItemRead, Last, kinds, records};
use parser::{Called, Parsed, Refusal, VARIABLE_CELLS, runs};
use pieces::Identifier;

// A call from its word on; `dest` and `dty` are its result and the result's type.
#[tactic(auto, unfolding(parser::specs::Step::opened, crate::specs::Turns::call_read))]
fn parse_call_item(
    tokens: &[u32],
    word: usize,
    kind: u32,
    dest: Identifier,
    dty: u32,
    arguments: &mut [u32],
    used: usize,
) -> Result<ItemRead, Refusal>
    requires { Within (tokens_of tokens.now) word
        × (used ≤ 3448) × (arguments_size ≤ length arguments.old) }
    ensures value { result ≡ call_read kind word dest dty used (call_d (tokens_of tokens.now) word) }
    ensures arguments_after { arguments.new ≡ sets arguments.old (used * 2)
        (variables_cells (call_d (tokens_of tokens.now) word).arguments.list) }
{
    let Called {
        callee,
        count,
        next,
    } = runs::parse_call(tokens, word, arguments, used * VARIABLE_CELLS)?;
    let run = Last::Run {
        first: used as u32,
        count: count as u32,
    };
    let item = records::record_of(kind, word as u32, dest, dty, callee, run);
    Ok(ItemRead {
        item,
        arguments: used + count,
        next,
    })
}

// An item; its arguments are stored from `used` on.
#[tactic(auto, unfolding(crate::specs::Body::item_d, crate::specs::Body::parsed_item, crate::specs::Turns::item_read, crate::specs::Records::record_of))]
pub(crate) fn parse_item(
    tokens: &[u32],
    at: usize,
    arguments: &mut [u32],
    used: usize,
) -> Result<ItemRead, Refusal>
    requires { Within (tokens_of tokens.now) at
        × (used ≤ 3448) × (arguments_size ≤ length arguments.old) }
    ensures value { result ≡ item_read used (item_d (tokens_of tokens.now) at) }
    ensures item_held { ItemHeld used arguments.old arguments.new (item_d (tokens_of tokens.now) at) }
{
    match parser::parse_instruction(tokens, at)? {
        Parsed::Done(o, next) => {
            let item = records::operation_record(o);
            Ok(ItemRead {
                item,
                arguments: used,
                next,
            })
        }
        Parsed::Call(word) => parse_call_item(
            tokens,
            word,
            kinds::CALL,
            Identifier(0),
            0,
            arguments,
            used,
        ),
        Parsed::CallInto(v, word) => parse_call_item(
            tokens,
            word,
            kinds::CALL_INTO,
            v.id,
            runs::type_cell(v.ty),
            arguments,
            used,
        ),
    }
}
