// One table of names per function: SymbolTable of ir.rs as type cells by name number, 0 where a name is absent.
ghost use Rattle.std.specs.Prelude.{◌≡◌, get_or};
ghost use Rattle.sema.specs.Symbols.{typed, facts, enter_d, looked_d, same_d};

use parser::Refusal;
use pieces::Identifier;
use utils::{cell_at, numbers};

// The type that a name has, or 0.
pub fn get(table: &[u32], name: Identifier) -> u32
    ensures { result ≡ get_or table.now name.0 0 }
{
    cell_at(table, name.0 as usize)
}

// The type that a name has; 16 where it has none.
#[tactic(auto, unfolding(crate::specs::Symbols::looked_d, utils::specs::Bytes::pick))]
pub fn look(table: &[u32], token: usize, name: Identifier) -> Result<u32, Refusal>
    ensures { result ≡ looked_d table.now token name }
{
    let ty = get(table, name);
    if ty == 0 {
        return Err(refusal(numbers::UNDEFINED, token, 0, 0, name));
    }
    Ok(ty)
}

// A refusal that names a name or types.
pub fn refusal(number: u32, token: usize, wanted: u32, found: u32, name: Identifier) -> Refusal
    ensures { result ≡ facts number token wanted found name }
{
    Refusal {
        number,
        token,
        wanted,
        found,
        name,
    }
}

// 15 where the name has another type.
#[tactic(auto, unfolding(crate::specs::Symbols::enter_d, utils::specs::Bytes::pick))]
pub fn insert(table: &mut [u32], token: usize, name: Identifier, ty: u32) -> Result<(), Refusal>
    ensures { typed table.new result ≡ enter_d table.old token name ty }
{
    let i = name.0 as usize;
    if table.len() <= i {
        return Ok(());
    }
    let known = table[i];
    if known == 0 {
        table[i] = ty;
        return Ok(());
    }
    if known == ty {
        return Ok(());
    }
    Err(refusal(numbers::UNEXPECTED_TYPE, token, known, ty, name))
}

// 17 where the types differ.
#[tactic(auto, unfolding(crate::specs::Symbols::opened))]
pub fn expect_type(token: usize, found: u32, wanted: u32) -> Result<(), Refusal>
    ensures { result ≡ same_d token found wanted }
{
    if found == wanted {
        return Ok(());
    }
    Err(refusal(numbers::OTHER_TYPE, token, wanted, found, Identifier(0)))
}
