// A refusal of reading: at which byte, which number of the design it is, and what is wrong with it.
ghost use Rattle.std.specs.Prelude.{◌<◌};

use fields::{Field, field_at, sizes_of, value_at, value_of};
use replies::number_of;
use rules::{LAST_KIND, MOST_COLUMNS, MOST_MODULES, MOST_NUMBER, MOST_ROWS, Refusal};
use std::fmt;
use std::fmt::Write;

// The only form of design bytes.
const FORM: usize = 1;

// What is wrong with a number.
#[derive(Clone, Copy)]
enum Wrong {
    Missing,
    Unfinished,
    FourthByte,
    Longer(usize),
    OtherForm(usize),
    Zero,
    Over {
        value: usize,
        most: usize,
    },
    OverHeight {
        value: usize,
        height: usize,
    },
    NoKind(usize),
    AllZero,
    CutOfNone,
    CutOfOne,
    Repeated {
        module: usize,
    },
    NoModule {
        value: usize,
        module: usize,
        last: usize,
    },
    NotOneThing,
    Extra,
}

impl fmt::Display for Wrong {
    fn fmt<W: Write>(&self, f: &mut fmt::Formatter<W>) -> fmt::Result {
        match *self {
            Wrong::Missing => write!(f, "the bytes end"),
            Wrong::Unfinished => write!(f, "the bytes end inside it"),
            Wrong::FourthByte => write!(
                f,
                "its third byte has the top bit set, but a number has at most three bytes"
            ),
            Wrong::Longer(value) => write!(f, "it is {value}, in more bytes than that takes"),
            Wrong::OtherForm(value) => write!(f, "it is {value} and has to be {FORM}"),
            Wrong::Zero => write!(f, "it is 0; at least 1"),
            Wrong::Over { value, most } => write!(f, "it is {value}; at most {most}"),
            Wrong::OverHeight { value, height } => {
                write!(f, "it is {value}; at most {height}, as H is")
            }
            Wrong::NoKind(value) => write!(
                f,
                "it is {value}; at most {LAST_KIND} (0 CLB, 1 RAM, 2 multiplier)"
            ),
            Wrong::AllZero => write!(f, "it and the two after it are all zero"),
            Wrong::CutOfNone => write!(f, "a cut joins two things, and nothing stands yet"),
            Wrong::CutOfOne => write!(f, "a cut joins two things, and only one stands"),
            Wrong::Repeated { module } => write!(f, "module {module} stands already"),
            Wrong::NoModule {
                value,
                module,
                last,
            } => write!(
                f,
                "it is {value}, which is module {module}; modules are 0 to {last}"
            ),
            Wrong::NotOneThing => write!(f, "not exactly one thing stands"),
            Wrong::Extra => write!(f, "nothing may follow"),
        }
    }
}

// The bytes end before the number or inside it.
fn unfinished(s: &[u8], position: usize) -> Wrong {
    if position < s.len() {
        return Wrong::Unfinished;
    }
    Wrong::Missing
}

// A byte's lower seven bits.
fn group(b: u8) -> usize
    ensures { result < 128 }
{
    (b % 128) as usize
}

// What is wrong with the bytes of a number, which stands first in these.
fn malformed(number: &[u8]) -> Wrong {
    match number {
        [low, second, ..] if *second < 128 => Wrong::Longer(group(*low)),
        [_, _, third, ..] if 128 <= *third => Wrong::FourthByte,
        [low, second, third, ..] => {
            let value = group(*low) + 128 * group(*second) + 16384 * group(*third);
            if *third == 0 {
                return Wrong::Longer(value);
            }
            Wrong::Over {
                value,
                most: MOST_NUMBER,
            }
        }
        // the reader calls fewer bytes unfinished
        _ => Wrong::Unfinished,
    }
}

// A value that is 0 or over its limit.
fn outside(value: usize, most: usize) -> Wrong {
    if value == 0 {
        return Wrong::Zero;
    }
    Wrong::Over { value, most }
}

// A block that has no row, or more than the chip.
fn no_block(value: usize, height: usize) -> Wrong {
    if value == 0 {
        return Wrong::Zero;
    }
    Wrong::OverHeight { value, height }
}

// A value that breaks its limits, by what it is.
fn broken(s: &[u8], field: Field, value: usize) -> Wrong {
    match field {
        Field::Width => outside(value, MOST_COLUMNS),
        Field::Height => outside(value, MOST_ROWS),
        Field::Block => no_block(value, value_of(s, 2).unwrap_or(0)),
        Field::Kind(_) => Wrong::NoKind(value),
        Field::Modules => outside(value, MOST_MODULES),
        _ => Wrong::AllZero,
    }
}

// A token that was refused, in a design of m modules. The first one stands on nothing, and after any other at least one thing stands.
fn bad_token(field: Field, value: usize, m: usize) -> Wrong {
    match (value, field) {
        (0..=1, Field::Token { number: 1, .. }) => Wrong::CutOfNone,
        (0..=1, _) => Wrong::CutOfOne,
        _ => {
            let module = value - 2;
            if module < m {
                return Wrong::Repeated { module };
            }
            let last = m.saturating_sub(1);
            Wrong::NoModule {
                value,
                module,
                last,
            }
        }
    }
}

// What is wrong with the number that was refused.
fn wrong_with(s: &[u8], field: Field, e: Refusal) -> Wrong {
    // stays: (d) a refusal of a value has its number there; where none stands, no arm says the value.
    let value = value_at(s, number_of(e).1).unwrap_or(0);
    match e {
        Refusal::Unfinished(p) => unfinished(s, p),
        Refusal::Malformed(p) => s.get(p..).map_or(Wrong::Missing, malformed),
        Refusal::WrongForm(_) => Wrong::OtherForm(value),
        Refusal::BreaksLimits(_) => broken(s, field, value),
        Refusal::BadToken(_) => bad_token(field, value, sizes_of(s).modules),
        Refusal::NotOneThing(_) => Wrong::NotOneThing,
        _ => Wrong::Extra,
    }
}

// A refusal of reading these bytes.
#[derive(Clone, Copy)]
pub struct Fault<'a> {
    pub bytes: &'a [u8],
    pub refusal: Refusal,
}

impl<'a> fmt::Display for Fault<'a> {
    fn fmt<W: Write>(&self, f: &mut fmt::Formatter<W>) -> fmt::Result {
        let position = number_of(self.refusal).1;
        let field = field_at(self.bytes, position);
        let wrong = wrong_with(self.bytes, field, self.refusal);
        write!(f, "byte {position}: {field}: {wrong}")
    }
}
