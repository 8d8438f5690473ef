// Why nothing is drawn, in words.
use replies::number_of;
use rules::Refusal;
use std::fmt;
use std::fmt::Write;

// A reply's number, and the place that stands beside it.
// stays: (a) a number for a refusal, here and below: the plan program's text has it (docs/FORMAT.md), and may have any.
#[derive(Clone, Copy)]
pub struct Replied {
    pub number: usize,
    pub value: usize,
}

// Why there is nothing to draw: the input is no header, design and plan, or somebody refuses.
#[derive(Clone, Copy)]
pub enum Undrawn {
    Unreadable,
    Refused { who: &'static str, reply: Replied },
}

impl From<Refusal> for Replied {
    fn from(e: Refusal) -> Replied {
        let said = number_of(e);
        Replied {
            number: said.0,
            value: said.1,
        }
    }
}

// What a reply with this number says.
fn cause_of(number: usize) -> &'static str {
    match number {
        1 => "the bytes end inside or before a number",
        2 => "a number is not written in its shortest form, or is too large",
        3 => "the form number is not 1",
        4 => "a value breaks the limits",
        5 => "a token names no module, or one that stands already, or cuts too few things",
        6 => "the tokens leave more than one thing standing",
        7 => "bytes follow the last token",
        8 => "the design is too large for the plan program",
        10 => "there is no placement",
        12 => "its region is not on the chip",
        13 => "its region is short of its need",
        14 => "the cut is not kept",
        _ => "the design can't be drawn",
    }
}

// Its number, where it finds its fault, and its cause.
impl fmt::Display for Replied {
    fn fmt<W: Write>(&self, f: &mut fmt::Formatter<W>) -> fmt::Result {
        let (number, value) = (self.number, self.value);
        let cause = cause_of(number);
        match number {
            1..=7 => write!(f, "{number} at byte {value}: {cause}"),
            12 | 13 => write!(f, "{number} for module {value}: {cause}"),
            14 => write!(f, "{number} for token {value}: {cause}"),
            _ => write!(f, "{number}: {cause}"),
        }
    }
}

impl fmt::Display for Undrawn {
    fn fmt<W: Write>(&self, f: &mut fmt::Formatter<W>) -> fmt::Result {
        match self {
            Undrawn::Unreadable => write!(
                f,
                "not read: the input is no whole header, design and plan"
            ),
            Undrawn::Refused { who, reply } => write!(f, "not drawn: {who} replies {reply}"),
        }
    }
}
