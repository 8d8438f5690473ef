// A line's words, which stand between its spaces, and what words say: numbers, weights, bytes, and bytes to lend.
#![tactic(auto)]

mod bytes;
mod lending;
mod numbers;
mod weights;
mod why;

ghost use Rattle.std.specs.Prelude.{◌≤◌, length};

pub use bytes::bytes_in;
pub use lending::{MOST_SAID, lend, poke};
pub use numbers::{number_in, numbers_in};
pub use weights::weight_in;
pub use why::Why;

// How many words a line has: one more than spaces.
pub fn count(line: &[u8]) -> usize {
    line.split(|b| *b == b' ').count()
}

// A line from word `k` on, counted from 0; no bytes if there are fewer words.
fn from_word(line: &[u8], k: usize) -> &[u8]
    ensures { length result.now ≤ length line.now }
{
    let mut rest = line;
    // stays: (d) words are counted, and no slice is indexed.
    for _ in 0..k {
        let Some(space) = rest.iter().position(|b| *b == b' ') else {
            return &rest[rest.len()..];
        };
        rest = &rest[space + 1..];
    }
    rest
}

// Words `first` to `last` of a line, counted from 0, with the spaces between; no bytes if there are fewer words.
pub fn words(line: &[u8], first: usize, last: usize) -> &[u8]
    requires { first ≤ last }
{
    let rest = from_word(line, first);
    let start = rest.len() - from_word(rest, last - first).len();
    match rest[start..].iter().position(|b| *b == b' ') {
        Some(length) => &rest[..start + length],
        None => rest,
    }
}

// Word `k` of a line, counted from 0; no bytes if there are fewer words.
pub fn word(line: &[u8], k: usize) -> &[u8] {
    words(line, k, k)
}
