// Bytes that are lent as a line's words say.
ghost use Rattle.std.specs.Prelude.{◌≤◌, length, IfOk};

use crate::bytes::{bytes_in, count_in};
use crate::numbers::number_to;
use crate::why::Why;
use crate::word;

// More bytes than a line can say.
pub const MOST_SAID: usize = 8192;

const MOST_BYTE: usize = 255;

// `N F` after a line's first word: makes the first n bytes all f, and says n, if there are so many; else they stay.
pub fn lend(line: &[u8], room: &mut [u8]) -> Result<usize, Why>
    ensures { IfOk result (λ n. n ≤ length room.old) }
{
    let n = number_to(room.len(), word(line, 1))?;
    let with = number_to(MOST_BYTE, word(line, 2))?;
    room[..n].fill(with as u8);
    Ok(n)
}

// `A BYTES` after a line's first word: puts the bytes at A, if there are so many; else they stay, so the word is tried elsewhere
// first.
pub fn poke(line: &[u8], lent: &mut [u8]) -> Result<(), Why> {
    let at = number_to(lent.len(), word(line, 1))?;
    let said = word(line, 2);
    let lent = &mut lent[at..];
    count_in(said, lent.len())?;
    let mut tried = [0u8; MOST_SAID];
    bytes_in(said, &mut tried)?;
    bytes_in(said, lent)?;
    Ok(())
}
