// Says what the plan program's answer to a design means: reads the design's bytes from standard input, as plan does, and prints a line.
#![tactic(auto)]

use program::{MOST_INPUT, WORK};
use rules::MOST_MODULES;
use saying::{LINE_SIZE, say};
use taking::{take_or_say, write_or_say};
use telling::Text;

fn main(rt: HostRuntime) {
    let mut input = [0u8; MOST_INPUT];
    let Ok(read) = take_or_say(&rt, &mut input) else {
        return;
    };
    let mut work = [0u8; WORK];
    let mut rows = [0u8; 4 * MOST_MODULES];
    let mut line = [0u8; LINE_SIZE];
    let mut line = Text::new(&mut line);
    say(read, &mut work, &mut rows, &mut line);
    let _ = write_or_say(&rt, line.said());
}
