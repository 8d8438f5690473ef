// Numbers in decimal.
ghost use Rattle.std.specs.Prelude.{◌≤◌, IfOk};

use crate::why::Why;

// A number has at most so many digits.
const MOST_DIGITS: usize = 18;

// A decimal number in a word: digits alone, where `parse` would take a sign too, and would want the word as text first.
pub fn number_in(word: &[u8]) -> Result<usize, Why> {
    if word.is_empty() || word.len() > MOST_DIGITS {
        return Err(Why::NoNumber);
    }
    let mut n = 0;
    for b in word {
        if !b.is_ascii_digit() {
            return Err(Why::NoNumber);
        }
        n = 10 * n + usize::from(b - b'0');
    }
    Ok(n)
}

// A number in a word that is at most so much.
pub fn number_to(most: usize, word: &[u8]) -> Result<usize, Why>
    ensures { IfOk result (λ n. n ≤ most) }
{
    let n = number_in(word)?;
    if n > most {
        return Err(Why::NoRoom);
    }
    Ok(n)
}

// Puts numbers that such a byte parts into places, if each is a number and has one; the other places stay.
pub fn numbers_in(parting: u8, s: &[u8], places: &mut [usize]) -> Result<(), Why> {
    let mut places = places.iter_mut();
    for said in s.split(|b| *b == parting) {
        let Some(place) = places.next() else {
            return Err(Why::NoRoom);
        };
        *place = number_in(said)?;
    }
    Ok(())
}
