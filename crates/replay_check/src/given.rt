// What a recheck is given beside the new text.
use functions::sizes;
use replay::{lists, number_at};
use utils::limits;

// The old text, as much of its header table as is lent, and the function's number.
#[derive(Clone, Copy)]
pub struct Given<'t> {
    pub old: &'t [u8],
    pub table: &'t [u32],
    pub number: u32,
}

// The header table that `check` writes for a text.
fn write_table(text: &[u8], table: &mut [u32]) {
    let mut tokens = [0u32; lexer::sizes::TOKENS];
    let mut names = [0u32; lexer::sizes::NAMES];
    let mut items = [0u32; sizes::ITEMS];
    let mut arguments = [0u32; sizes::ARGUMENTS];
    let mut blocks = [0u32; sizes::BLOCKS];
    let mut predecessors = [0u32; sizes::PREDECESSORS];
    let mut message = [0u8; limits::MESSAGE];
    checker::check(
        text,
        &mut tokens,
        &mut names,
        table,
        &mut items,
        &mut arguments,
        &mut blocks,
        &mut predecessors,
        &mut message,
    );
}

// Changes cells of a table: the file has how many, and of each its index and its value. Answers the place after them.
fn change(data: &[u8], from: usize, table: &mut [u32]) -> usize {
    let changes = number_at(data, from);
    let mut at = changes.next;
    for _ in 0..changes.value {
        let index = number_at(data, at);
        let value = number_at(data, index.next);
        let Some(cell) = table.get_mut(index.value as usize) else {
            return data.len();
        };
        *cell = value.value;
        at = value.next;
    }
    at
}

// What a recheck is given, with room for the old text and its table, and the place in the file after it.
pub fn load<'t>(
    data: &[u8],
    from: usize,
    old: &'t mut [u8],
    table: &'t mut [u32],
) -> (Given<'t>, usize) {
    let text = lists::load_text(data, from, old);
    let old = &old[..text.count];
    write_table(old, table);
    let changed = change(data, text.next, table);
    let length = number_at(data, changed);
    let number = number_at(data, length.next);
    let given = Given {
        old,
        table: &table[..lists::lent(length.value, table.len())],
        number: number.value,
    };
    (given, number.next)
}
