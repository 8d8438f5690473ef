// Bytes typed as text: two hexadecimal digits each, with spaces and line breaks between them and comments from `#` to the line's end.
// Such text is recognised, turned into the bytes, and made from a design's bytes.
#![tactic(auto)]

mod answers;
mod back;
mod digits;
mod text;

ghost use Rattle.std.specs.Prelude.{◌≡◌};

pub use answers::{answer_back, answer_text};
pub use back::put_back;
use digits::{Digit, Digits};
use std::fmt;
use std::fmt::Write;
use telling::Text;
pub use text::is_text;

// What is wrong with a text, and at which place: a byte that is no digit, or a digit before it that has no second one beside it.
#[derive(Clone, Copy)]
pub enum Mistake {
    NoDigit { at: usize, byte: u8 },
    OddDigit { at: usize },
}

impl Mistake {
    // The place.
    fn at(self) -> usize {
        match self {
            Mistake::NoDigit { at, .. } => at,
            Mistake::OddDigit { at } => at,
        }
    }
}

impl fmt::Display for Mistake {
    fn fmt<W: Write>(&self, f: &mut fmt::Formatter<W>) -> fmt::Result {
        match *self {
            Mistake::NoDigit { byte, .. } if byte.is_ascii_graphic() => {
                write!(f, "{} is no hexadecimal digit", byte as char)
            }
            Mistake::NoDigit { byte, .. } => {
                write!(f, "byte {byte:02x} is no hexadecimal digit")
            }
            Mistake::OddDigit { .. } => {
                write!(f, "an odd digit; a byte is two digits with nothing between")
            }
        }
    }
}

// A text of hexadecimal digits, with at least one.
pub fn is_typed(text: &[u8]) -> bool {
    let good = Digits::new(text).all(|digit| !matches!(digit, Digit::Other(_)));
    good && Digits::new(text).any(|digit| matches!(digit, Digit::Value(_)))
}

// Puts the bytes that a text says, up to the first mistake.
pub fn turn(text: &[u8], out: &mut Text) -> Result<(), Mistake>
    ensures { out.new.room ≡ out.old.room }
{
    // the first digit of a byte, which waits for the second
    let mut waiting = None;
    for (at, digit) in Digits::new(text).enumerate() {
        waiting = match (waiting, digit) {
            (_, Digit::Other(byte)) => return Err(Mistake::NoDigit { at, byte }),
            (None, Digit::Value(high)) => Some(high),
            (Some(high), Digit::Value(low)) => {
                out.put_byte(high << 4 | low);
                None
            }
            (None, _) => None,
            (Some(_), _) => return Err(Mistake::OddDigit { at }),
        };
    }
    match waiting {
        None => Ok(()),
        Some(_) => Err(Mistake::OddDigit { at: text.len() }),
    }
}
