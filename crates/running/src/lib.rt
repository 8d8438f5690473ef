// The plan program whole: it reads its input, plans it and writes the text. `plan` does just this, and so does each
// program that is run on one input more.
#![tactic(auto)]

use printing::TEXT_SIZE;
use program::{MOST_INPUT, plan_input};
use taking::{take_or_say, write_or_say};

// Reads at most 4,096 bytes of a design from standard input, and prints what plan answers. Where they could not be read it
// prints nothing, since their front could be another design.
pub fn run_plan(rt: &(impl Input + Print + Eprint)) {
    let mut input = [0u8; MOST_INPUT];
    let Ok(read) = take_or_say(rt, &mut input) else {
        return;
    };
    // stays: (a) PlansInput, which docs/PROMISES.md names, says how much was read, and the text's length, beside the bytes.
    let mut text = [0u8; TEXT_SIZE];
    let count = read.len();
    let length = plan_input(&input, count, &mut text);
    let _ = write_or_say(rt, &text[..length]);
}
