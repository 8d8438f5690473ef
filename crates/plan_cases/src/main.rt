// Runs what the plan program runs on many inputs. A case on standard input is two bytes with its length, the low one
// first, and then its bytes; the texts of all cases are printed one after the other.
#![tactic(auto)]

use cases::{Cases, MOST_CASES};
use printing::TEXT_SIZE;
use program::{MOST_INPUT, WORK, plan_bytes};
use rules::MOST_MODULES;
use taking::{take_or_say, write_or_say};

fn main(rt: HostRuntime) {
    let mut input = [0u8; MOST_CASES];
    let (Ok(read) | Err(read)) = take_or_say(&rt, &mut input);
    let mut work = [0u8; WORK];
    let mut rows = [0u8; 4 * MOST_MODULES];
    let mut text = [0u8; TEXT_SIZE];
    for case in Cases(read) {
        let bytes = &case[..case.len().min(MOST_INPUT)];
        let length = plan_bytes(bytes, &mut work, &mut rows, &mut text);
        let _ = write_or_say(&rt, &text[..length]);
    }
}
