// Turns the bytes of a design, on standard input, into text typed in hexadecimal, each number with a comment. The first byte of the
// output is d, and the text follows; or r, and a line follows that says what is wrong. There is no output where the input could not
// be read.
#![tactic(auto)]

use taking::{take_or_say, write_or_say};
use telling::Text;
use typed::answer_back;

// A byte more than the most that are turned, to tell whether there are more. No design has so many.
const BYTES_SIZE: usize = 4_096;

const MOST_BYTES: usize = BYTES_SIZE - 1;

// A line for each byte at most, which takes less than 64.
const TEXT_SIZE: usize = 64 * BYTES_SIZE;

fn main(rt: HostRuntime) {
    let mut bytes = [0u8; BYTES_SIZE];
    let Ok(bytes) = take_or_say(&rt, &mut bytes) else {
        return;
    };
    let mut out = [0u8; TEXT_SIZE];
    let mut answer = Text::new(&mut out);
    answer_back(bytes, MOST_BYTES, &mut answer);
    let _ = write_or_say(&rt, answer.said());
}
