// What a line asks to be held or lent.
use words::{count, word};

#[derive(Clone, Copy)]
pub enum Request {
    Nothing,
    Design,
    Work,
    Poke,
    Rows,
    Row,
}

// The request that a line makes, if it asks to hold or to lend something. Its words are counted only where the first one is that of
// such a request.
pub fn request_in(line: &[u8]) -> Option<Request> {
    if let [] | [b'#', ..] = line {
        return Some(Request::Nothing);
    }
    match word(line, 0) {
        b"design" if count(line) == 8 => Some(Request::Design),
        b"work" if count(line) == 3 => Some(Request::Work),
        b"poke" if count(line) == 3 => Some(Request::Poke),
        b"rows" if count(line) == 3 => Some(Request::Rows),
        b"row" if count(line) == 3 => Some(Request::Row),
        _ => None,
    }
}

// Whether a line's first word is that of a request to hold or to lend something.
pub fn is_kept(line: &[u8]) -> bool {
    matches!(
        word(line, 0),
        b"design" | b"work" | b"poke" | b"rows" | b"row"
    )
}
