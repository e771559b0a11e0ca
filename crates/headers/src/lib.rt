// What a recheck takes of an accepted text: its header table.
#![tactic(auto)]

pub mod bring;
pub mod kept;
pub mod names;
pub mod table;

use pieces::Identifier;

// Whose name is looked up: a row's of the header table, or one of the new text's names.
#[derive(Clone, Copy)]
pub enum Looked {
    Header(usize),
    Name(Identifier),
}

// How many of the old headers the new text names, and where among them is the one of the replaced function.
#[derive(Clone, Copy)]
pub struct Placed {
    pub place: usize,
    pub count: usize,
}
