// `write N F`: writes the held design into n bytes f, which are shown if it is done: write NUMBER COUNT BYTES
ghost use Rattle.std.specs.Prelude.{◌≡◌};

use replies::number_of;
use rules::{Design, Refusal};
use std::fmt;
use std::fmt::Write;
use telling::{Hex, Text};
use words::{Why, lend};

// The most bytes that a `write` has.
const MOST_WRITTEN: usize = 4096;

// Writes a design, and puts the answer.
fn write_to(bytes: &mut [u8], design: Design, text: &mut Text) -> fmt::Result
    ensures { text.new.room ≡ text.old.room }
{
    match cellweaver::write(design, bytes) {
        Ok(n) => writeln!(text, "write 0 {n} {}", Hex(bytes)),
        Err(e) => writeln!(text, "write {} 0 -", number_of(e).0),
    }
}

pub fn write(line: &[u8], design: Design, text: &mut Text) -> Result<fmt::Result, Why>
    ensures { text.new.room ≡ text.old.room }
{
    let mut bytes = [0u8; MOST_WRITTEN];
    let n = lend(line, &mut bytes)?;
    Ok(write_to(&mut bytes[..n], design, text))
}
