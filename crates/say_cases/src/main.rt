// Runs what `say` runs on many inputs. A case on standard input is two bytes with its length, the low one first, and then its bytes;
// the lines of all cases are printed one after the other.
#![tactic(auto)]

use cases::{Cases, MOST_CASES};
use program::{MOST_INPUT, WORK};
use rules::MOST_MODULES;
use saying::{LINE_SIZE, say};
use taking::{take_or_say, write_or_say};
use telling::Text;

fn main(rt: HostRuntime) {
    let mut input = [0u8; MOST_CASES];
    let (Ok(read) | Err(read)) = take_or_say(&rt, &mut input);
    let mut work = [0u8; WORK];
    let mut rows = [0u8; 4 * MOST_MODULES];
    let mut line = [0u8; LINE_SIZE];
    let mut line = Text::new(&mut line);
    for case in Cases(read) {
        line.clear();
        say(
            &case[..case.len().min(MOST_INPUT)],
            &mut work,
            &mut rows,
            &mut line,
        );
        let _ = write_or_say(&rt, line.said());
    }
}
