// Answers the requests of docs/ASK.md: reads them from standard input, a line at a time, and writes the answers.
#![tactic(auto)]

mod lines;

use asking::{Desk, Why, put_bad, serve};
use lines::Reading;
use taking::write_or_say;
use telling::Text;

// A line's bytes, with its newline.
const LINE_SIZE: usize = 16_384;

const WORK_SIZE: usize = 2_097_152;

const ROWS_SIZE: usize = 1_024;

// Bytes enough for any answer.
const ANSWER_SIZE: usize = 16_384;

// Serves the line that is read, and says whether its answer was written.
fn answer(
    rt: &(impl Print + Eprint),
    reading: &Reading,
    number: usize,
    desk: &mut Desk,
    out: &mut [u8],
) -> bool {
    let mut text = Text::new(out);
    if reading.is_long() {
        put_bad(number, Why::TooLong, &mut text);
    } else {
        serve(reading.line(), number, desk, &mut text);
    }
    write_or_say(rt, text.said()).is_ok()
}

// Reads a line and serves it, if there is one, and says whether to go on.
fn step(
    rt: &(impl Input + Print + Eprint),
    reading: &mut Reading,
    number: usize,
    desk: &mut Desk,
    out: &mut [u8],
) -> bool {
    reading.read_line(rt);
    if reading.is_done() {
        return false;
    }
    let written = answer(rt, reading, number, desk, out);
    reading.pass();
    written
}

// Serves line after line until the input is over, or it can't be read, or an answer can't be written.
fn run(
    rt: &(impl Input + Print + Eprint),
    input: &mut [u8],
    work: &mut [u8],
    rows: &mut [u8],
    out: &mut [u8],
) {
    let mut reading = Reading::new(input);
    let mut desk = Desk::nothing(work, rows);
    // stays: (d) the number is the line's, which a bad line's answer says, and counts the turns too.
    for number in 1..usize::MAX {
        if !step(rt, &mut reading, number, &mut desk, out) {
            return;
        }
    }
}

// Lends the arrays as bytes: main, which holds them, has no arithmetic on their lengths to prove.
fn run_in(
    rt: &(impl Input + Print + Eprint),
    input: &mut [u8; LINE_SIZE],
    work: &mut [u8; WORK_SIZE],
    rows: &mut [u8; ROWS_SIZE],
    out: &mut [u8; ANSWER_SIZE],
) {
    run(rt, input, work, rows, out);
}

fn main(rt: HostRuntime) {
    let mut input = [0u8; LINE_SIZE];
    let mut work = [0u8; WORK_SIZE];
    let mut rows = [0u8; ROWS_SIZE];
    let mut out = [0u8; ANSWER_SIZE];
    run_in(&rt, &mut input, &mut work, &mut rows, &mut out);
}
