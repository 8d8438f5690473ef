// Serves the requests of docs/ASK.md, a line at a time: what is held and lent is kept, and the services are asked over it.
#![tactic(auto)]

mod looking;
mod scores;
mod services;
mod writes;

ghost use Rattle.std.specs.Prelude.{◌≡◌, OnErr};
ghost use Rattle.keeping.specs.Keeps.{held_on};

pub use keeping::{Desk, Held};
use keeping::{Lent, request_in};
use rules::Design;
use services::answer;
use std::fmt;
use std::fmt::Write;
use telling::Text;
pub use words::Why;

// stays: (c) tried as one struct; left open: a method that lends a part of a Lent, a slice past a ghost field. So in services.
// Asks a service, over the design that is held and the bytes that are lent.
fn ask(
    line: &[u8],
    design: &mut Design,
    work: &mut Lent,
    rows: &mut Lent,
    text: &mut Text,
) -> Result<fmt::Result, Why>
    ensures design { OnErr result (design.new ≡ design.old) }
    ensures work { work.new.count ≡ work.old.count }
    ensures rows { rows.new.count ≡ rows.old.count }
    ensures room { text.new.room ≡ text.old.room }
{
    let w = work.count;
    let r = rows.count;
    answer(line, design, &mut work.all[..w], &mut rows.all[..r], text)
}

// Keeps what a line holds or lends, or asks a service and puts its answer.
fn answered(line: &[u8], desk: &mut Desk, text: &mut Text) -> Result<fmt::Result, Why>
    ensures bad { OnErr result (held_on desk.new ≡ held_on desk.old) }
    ensures room { text.new.room ≡ text.old.room }
{
    match request_in(line) {
        Some(request) => {
            desk.keep(request, line)?;
            Ok(Ok(()))
        }
        None => ask(line, &mut desk.design, &mut desk.work, &mut desk.rows, text),
    }
}

// Puts the answer to the bad line of this number. A text takes what has room, so that putting never fails.
pub fn put_bad(number: usize, why: Why, text: &mut Text)
    ensures { text.new.room ≡ text.old.room }
{
    let _ = writeln!(text, "bad {number}: {why}");
}

// Serves the line of this number: keeps what it holds or lends, or asks a service, and puts the answer, if there is one.
pub fn serve(line: &[u8], number: usize, desk: &mut Desk, text: &mut Text)
    ensures { text.new.room ≡ text.old.room }
{
    match answered(line, desk, text) {
        Ok(put) => {
            let _ = put;
        }
        Err(why) => put_bad(number, why, text),
    }
}
