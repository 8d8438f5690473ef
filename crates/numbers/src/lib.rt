// Seven-bit numbers: taken by a reader that keeps its place in the caller's bytes, and put into bytes that are lent.
#![tactic(auto)]

ghost use Rattle.std.specs.Prelude.{◌≡◌, ◌+◌, ◌≤◌, ◌<◌, length};
ghost use Rattle.rules.specs.Design.{most_number};
ghost use Rattle.rules.specs.Bytes.{number_bytes, number_at, second_byte, third_byte};
ghost use Rattle.putting.specs.Put.{Put};
ghost use Rattle.numbers.specs.Replies.{reply_of};

use rules::{MOST_NUMBER, Refusal};

// What was taken from bytes, and the position after it.
#[derive(Clone, Copy)]
pub struct Taken<T> {
    pub value: T,
    pub next: usize,
}

// The answer to taking a number: its value and the position after it, or the refusal, kind and position together.
pub type NumberReply = Result<Taken<usize>, Refusal>;

// stays: (a) refusals carry positions among the caller's bytes (01), so bytes and a position are taken, here and below.
// The third and last byte of the number that starts at `start`, above the value of the first two.
#[tactic(auto, unfolding(rules::specs::Bytes::third_byte))]
fn third_byte(s: &[u8], start: usize, low: usize) -> NumberReply
    requires { (start + 1 < length s.now) × (low < 16384) }
    ensures { result ≡ reply_of (third_byte s.now start low) }
{
    let last = start + 2;
    if s.len() <= last {
        return Err(Refusal::Unfinished(start));
    }
    let third = s[last] as usize;
    if 0 < third {
        let value = low + 16384 * third;
        if value <= MOST_NUMBER {
            return Ok(Taken {
                value,
                next: start + 3,
            });
        }
    }
    Err(Refusal::Malformed(start))
}

// The second byte of the number that starts at `start`, and the third if it goes on, above the value of the first.
#[tactic(auto, unfolding(rules::specs::Bytes::second_byte))]
fn second_byte(s: &[u8], start: usize, low: usize) -> NumberReply
    requires { (start < length s.now) × (low < 128) }
    ensures { result ≡ reply_of (second_byte s.now start low) }
{
    let at = start + 1;
    if s.len() <= at {
        return Err(Refusal::Unfinished(start));
    }
    let second = s[at] as usize;
    if 128 <= second {
        return third_byte(s, start, low + 128 * (second - 128));
    }
    if second == 0 {
        return Err(Refusal::Malformed(start));
    }
    Ok(Taken {
        value: low + 128 * second,
        next: start + 2,
    })
}

// The number at `at`: its first byte, and the others if it goes on.
#[tactic(auto, unfolding(rules::specs::Bytes::number_at))]
fn number_at(s: &[u8], at: usize) -> NumberReply
    ensures { result ≡ reply_of (number_at s.now at) }
{
    if s.len() <= at {
        return Err(Refusal::Unfinished(at));
    }
    let first = s[at] as usize;
    if 128 <= first {
        return second_byte(s, at, first - 128);
    }
    Ok(Taken {
        value: first,
        next: at + 1,
    })
}

// The caller's bytes, and the reader's place in them.
#[derive(Clone, Copy)]
pub struct Reader<'a> {
    pub src: &'a [u8],
    pub at: usize,
}

impl<'a> Reader<'a> {
    // A reader of `src` whose place is `at`.
    pub fn new(src: &'a [u8], at: usize) -> Self
        ensures { (result.src ≡ src.entry) × (result.at ≡ at) }
    {
        Reader { src, at }
    }

    // The number at the reader's place.
    pub fn number(self) -> NumberReply
        ensures { result ≡ reply_of (number_at self.entry.src.now self.entry.at) }
    {
        number_at(self.src, self.at)
    }
}

// The number at `at`, by way of a reader. The other crates take every number so: its parameters are plain.
pub fn take_number(s: &[u8], at: usize) -> NumberReply
    ensures { result ≡ reply_of (number_at s.now at) }
{
    Reader::new(s, at).number()
}

// How many bytes `v` takes.
#[tactic(auto, unfolding(rules::specs::Bytes::number_bytes))]
pub fn number_len(v: usize) -> usize
    ensures { result ≡ length (number_bytes v) }
{
    if v < 128 {
        return 1;
    }
    if v < 16384 {
        return 2;
    }
    3
}

// Puts `v` at `at`, low group first, and gives the position after it.
#[tactic(auto, unfolding(rules::specs::Bytes::number_bytes))]
pub fn put_number(buf: &mut [u8], at: usize, v: usize) -> usize
    requires { (v ≤ most_number) × (at + length (number_bytes v) ≤ length buf.old) }
    ensures { Put buf.old at (number_bytes v) result buf.new }
{
    if v < 128 {
        buf[at] = v as u8;
        return at + 1;
    }
    let low = (128 + v % 128) as u8;
    if v < 16384 {
        let high = (v / 128) as u8;
        buf[at] = low;
        buf[at + 1] = high;
        return at + 2;
    }
    let middle = (128 + v / 128 % 128) as u8;
    let high = (v / 16384) as u8;
    buf[at] = low;
    buf[at + 1] = middle;
    buf[at + 2] = high;
    at + 3
}
