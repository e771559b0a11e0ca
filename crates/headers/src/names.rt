// Names by spelling: a looked-up name is a part of the old text or of the new.
ghost use Rattle.std.specs.Prelude.{◌≡◌, ◌≤◌};
ghost use Rattle.utils.specs.Bytes.{same_bytes};
ghost use Rattle.lexer.specs.Decoded.{name_of};
ghost use Rattle.utils.specs.Limits.{most_functions};
ghost use Rattle.headers.specs.Spelled.{row_name, spelled_as, InTable, name_spelled};

use crate::Looked;
use functions::columns;
use pieces::{Identifier, tokens};
use utils::cell_at;

// The part of the old text that row i of the header table names.
fn row_name<'t, 'c>(old: &'t [u8], rows: &'c [u32], i: usize) -> &'t [u8]
    requires { i ≤ most_functions }
    ensures { result.now ≡ row_name old.now rows.now i }
{
    let place = cell_at(rows, columns::PLACE + i * columns::ROW) as usize;
    let end = place + cell_at(rows, columns::LENGTH + i * columns::ROW) as usize;
    if end <= old.len() {
        return &old[place..end];
    }
    &old[0..0]
}

// A name's spelling: a row's is a part of the old text, any other a part of the new one.
pub fn spelled<'t, 'c>(
    old: &'t [u8],
    new: &'t [u8],
    rows: &'c [u32],
    names: &'c [u32],
    of: Looked,
) -> &'t [u8]
    requires { InTable of }
    ensures { result.now
        ≡ spelled_as old.now new.now rows.now names.now of }
{
    match of {
        Looked::Header(i) => row_name(old, rows, i),
        Looked::Name(x) => lexer::get_name(new, names, x),
    }
}

// Whether row i is spelled as the name x.
pub fn is_spelled<'t, 'c>(
    old: &'t [u8],
    new: &'t [u8],
    rows: &'c [u32],
    names: &'c [u32],
    i: usize,
    x: Identifier,
) -> bool
    requires { i ≤ most_functions }
    ensures { result ≡ same_bytes (row_name old.now rows.now i)
        (name_of new.now names.now x.0) }
{
    let header = spelled(old, new, rows, names, Looked::Header(i));
    let name = spelled(old, new, rows, names, Looked::Name(x));
    tokens::same(header, name)
}

// The first of the new text's `count` names that is spelled as row i's name.
pub fn find_name<'t, 'c>(
    old: &'t [u8],
    rows: &'c [u32],
    i: usize,
    new: &'t [u8],
    names: &'c [u32],
    count: u32,
) -> Option<Identifier>
    requires { i ≤ most_functions }
    ensures { result ≡ name_spelled new.now names.now 0 count
        (row_name old.now rows.now i) }
{
    for x in 0..count {
        if is_spelled(old, new, rows, names, i, Identifier(x)) {
            return Some(Identifier(x));
        }
    }
    None
}
