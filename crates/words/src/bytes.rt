// Bytes in hexadecimal, two digits each, in lower case.
ghost use Rattle.std.specs.Prelude.{◌*◌, ◌≤◌, ◌<◌, length, IfOk, IfSome};

use crate::why::Why;

// The value of a hexadecimal digit.
fn digit(b: u8) -> Option<u8>
    ensures { IfSome result (λ d. d < 16) }
{
    match b {
        b'0'..=b'9' => Some(b - b'0'),
        b'a'..=b'f' => Some(b - b'a' + 10),
        _ => None,
    }
}

// The byte that two digits say.
fn byte(high: u8, low: u8) -> Option<u8> {
    Some(16 * digit(high)? + digit(low)?)
}

// How many bytes a word says by its length, if there are places for them: `-` is none.
pub fn count_in(word: &[u8], places: usize) -> Result<usize, Why>
    ensures { IfOk result (λ n. (n ≤ places) × (2 * n ≤ length word.now)) }
{
    match word {
        b"-" => Ok(0),
        _ if word.is_empty() || word.len() % 2 != 0 => Err(Why::NoBytes),
        _ if word.len() / 2 > places => Err(Why::NoRoom),
        _ => Ok(word.len() / 2),
    }
}

// Puts the bytes that a word says into places, and says how many, if it says bytes and they have one.
pub fn bytes_in(word: &[u8], places: &mut [u8]) -> Result<usize, Why>
    ensures { IfOk result (λ n. n ≤ length places.old) }
{
    let n = count_in(word, places.len())?;
    for (place, pair) in places.iter_mut().zip(word.chunks_exact(2)) {
        *place = byte(pair[0], pair[1]).ok_or(Why::NoBytes)?;
    }
    Ok(n)
}
