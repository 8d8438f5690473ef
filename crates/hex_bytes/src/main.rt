// Turns text typed in hexadecimal, on standard input, into the bytes that it says. The first byte of the output is d, and the bytes
// follow; or r, and a line follows that says what is wrong. There is no output where the input could not be read.
#![tactic(auto)]

use taking::{take_or_say, write_or_say};
use telling::Text;
use typed::answer_text;

// A byte more than the longest text, to tell whether there is more.
const TEXT_SIZE: usize = 65_536;

const MOST_TEXT: usize = TEXT_SIZE - 1;

fn main(rt: HostRuntime) {
    let mut text = [0u8; TEXT_SIZE];
    let Ok(text) = take_or_say(&rt, &mut text) else {
        return;
    };
    let mut out = [0u8; TEXT_SIZE];
    let mut answer = Text::new(&mut out);
    answer_text(text, MOST_TEXT, &mut answer);
    let _ = write_or_say(&rt, answer.said());
}
