// What a case can show otherwise than expected.
use std::fmt;

// A slice of cells that is lent.
#[derive(Clone, Copy)]
pub enum Cells {
    Tokens,
    Names,
    Functions,
    Items,
    Arguments,
    Blocks,
    Predecessors,
}

impl fmt::Display for Cells {
    fn fmt<W: fmt::Write>(&self, f: &mut fmt::Formatter<W>) -> fmt::Result {
        f.write_str(match self {
            Cells::Tokens => "tokens",
            Cells::Names => "names",
            Cells::Functions => "functions",
            Cells::Items => "items",
            Cells::Arguments => "arguments",
            Cells::Blocks => "blocks",
            Cells::Predecessors => "predecessors",
        })
    }
}

// A number of the answer, or a slice; or what is neither, and is told as nothing.
#[derive(Clone, Copy)]
pub enum Part {
    Number,
    Line,
    Place,
    Count(Cells),
    Cells(Cells),
    Message,
    Other(u32),
}

impl fmt::Display for Part {
    fn fmt<W: fmt::Write>(&self, f: &mut fmt::Formatter<W>) -> fmt::Result {
        match self {
            Part::Number => f.write_str("number"),
            Part::Line => f.write_str("line"),
            Part::Place => f.write_str("place"),
            Part::Count(cells) => write!(f, "count of {cells}"),
            Part::Cells(cells) => cells.fmt(f),
            Part::Message => f.write_str("message"),
            Part::Other(_) => f.write_str("nothing"),
        }
    }
}
