// Why a line is bad.
use std::fmt;
use std::fmt::Write;

#[derive(Clone, Copy, PartialEq, Eq)]
pub enum Why {
    NoRequest,
    WrongCount,
    NoNumber,
    NoBytes,
    NoRoom,
    TooLong,
}

impl fmt::Display for Why {
    fn fmt<W: Write>(&self, f: &mut fmt::Formatter<W>) -> fmt::Result {
        f.write_str(match self {
            Why::NoRequest => "no such request",
            Why::WrongCount => "wrong number of words",
            Why::NoNumber => "not a number",
            Why::NoBytes => "not bytes",
            Why::NoRoom => "more than there is",
            Why::TooLong => "too long",
        })
    }
}
