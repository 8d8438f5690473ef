// What a number of a design is called.
use crate::Field;
use std::fmt;
use std::fmt::Write;

impl fmt::Display for Field {
    fn fmt<W: Write>(&self, f: &mut fmt::Formatter<W>) -> fmt::Result {
        match *self {
            Field::Form => write!(f, "form number"),
            Field::Width => write!(f, "W, columns"),
            Field::Height => write!(f, "H, rows"),
            Field::Block => write!(f, "B, rows of a block"),
            Field::Kind(x) => write!(f, "kind of column {x}"),
            Field::Modules => write!(f, "m, modules"),
            Field::Clbs(k) => write!(f, "need of module {k}, CLBs"),
            Field::Rams(k) => write!(f, "need of module {k}, RAMs"),
            Field::Multipliers(k) => write!(f, "need of module {k}, multipliers"),
            Field::Token { number, of } => write!(f, "token {number} of {of}"),
            Field::After => write!(f, "after the last token"),
        }
    }
}
