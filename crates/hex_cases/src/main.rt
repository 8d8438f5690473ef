// Turns many texts into bytes and back. A case on standard input is two bytes with its length, the low one first, and then a text. For
// each is printed what is wrong with it, or the text that its bytes are turned back into and whether that says the same bytes.
#![tactic(auto)]

use cases::{Cases, MOST_CASES};
use taking::{take_or_say, write_or_say};
use telling::Text;
use typed::{answer_back, answer_text};

// A case is shorter than this, and so is each text that is made of one.
const ROOM: usize = 65536;

// An answer without its first byte.
fn rest(answer: &[u8]) -> &[u8] {
    answer.get(1..).unwrap_or(answer)
}

// The first byte of an answer says that it was done.
fn is_done(answer: &[u8]) -> bool {
    answer.first() == Some(&b'd')
}

// Turns an answer's bytes back, and prints the text and whether it says the same.
fn turn_back(rt: &(impl Print + Eprint), answer: &[u8], back: &mut Text, again: &mut Text) {
    answer_back(rest(answer), ROOM, back);
    let _ = write_or_say(rt, rest(back.said()));
    answer_text(rest(back.said()), ROOM, again);
    let verdict: &[u8] = if again.said() == answer {
        b"same\n"
    } else {
        b"different\n"
    };
    let _ = write_or_say(rt, verdict);
}

// Turns a text, and turns it back if it is good.
fn turn_text(
    rt: &(impl Print + Eprint),
    text: &[u8],
    bytes: &mut Text,
    back: &mut Text,
    again: &mut Text,
) {
    answer_text(text, ROOM, bytes);
    if is_done(bytes.said()) {
        turn_back(rt, bytes.said(), back, again);
        return;
    }
    let _ = write_or_say(rt, rest(bytes.said()));
}

fn main(rt: HostRuntime) {
    let mut input = [0u8; MOST_CASES];
    let (Ok(read) | Err(read)) = take_or_say(&rt, &mut input);
    let mut bytes = [0u8; ROOM];
    let mut back = [0u8; ROOM];
    let mut again = [0u8; ROOM];
    let mut bytes = Text::new(&mut bytes);
    let mut back = Text::new(&mut back);
    let mut again = Text::new(&mut again);
    for case in Cases(read) {
        turn_text(&rt, case, &mut bytes, &mut back, &mut again);
    }
}
