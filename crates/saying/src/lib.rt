// What the plan program's answer to some bytes means, in one line of plain words.
#![tactic(auto)]

mod faults;
mod none;

ghost use Rattle.std.specs.Prelude.{◌≡◌};
ghost use Rattle.rules.specs.Design.{LawfulDesign};

use cellweaver::{plan, read, work_needed};
use faults::Fault;
use none::put_no_placement;
use rules::{Design, Refusal, Shape};
use std::fmt;
use std::fmt::Write;
use telling::Text;
use typed::{is_text, is_typed};

// More bytes than a line takes.
pub const LINE_SIZE: usize = 512;

// What plan answers for a design that was read. Of a lawful design it refuses nothing else.
fn put_planned(
    line: &mut Text,
    design: Design,
    planned: Result<Shape, Refusal>,
    lent: usize,
) -> fmt::Result
    requires { LawfulDesign design }
    ensures { line.new.room ≡ line.old.room }
{
    match planned {
        Ok(shape) => {
            let columns = shape.w.0;
            let rows = shape.h.0;
            write!(line, "done: the box has {columns} columns and {rows} rows")
        }
        Err(Refusal::TooShort) => {
            let needed = work_needed(design);
            write!(
                line,
                "too large: the lists take {needed} bytes of work, this program has {lent}; docs/FORMAT.md says what plans larger designs"
            )
        }
        Err(_) => put_no_placement(line, design),
    }
}

// A refusal of reading. Text is no design's bytes, whatever number they would be.
fn put_refused(line: &mut Text, bytes: &[u8], refusal: Refusal) -> fmt::Result
    ensures { line.new.room ≡ line.old.room }
{
    if is_typed(bytes) {
        return write!(
            line,
            "these are hexadecimal digits typed as text; ./hex turns them into a design"
        );
    }
    if is_text(bytes) {
        return write!(
            line,
            "this is text and no design; ./hex says what is wrong with it as hexadecimal digits"
        );
    }
    write!(line, "{}", Fault { bytes, refusal })
}

// Puts the sentence for what was read.
#[tactic(auto, using(crate::proofs::Read::lawful_read))]
fn put_sentence(line: &mut Text, bytes: &[u8], work: &mut [u8], rows: &mut [u8]) -> fmt::Result
    ensures { line.new.room ≡ line.old.room }
{
    let handed = read(bytes);
    let reply = handed.reply;
    let design = handed.design;
    match reply {
        Err(refusal) => put_refused(line, bytes, refusal),
        Ok(()) => {
            let planned = plan(design, work, rows);
            put_planned(line, design, planned, work.len())
        }
    }
}

// Puts the line for what the plan program answers to these bytes, with this work and these rows.
pub fn say(bytes: &[u8], work: &mut [u8], rows: &mut [u8], line: &mut Text)
    ensures { line.new.room ≡ line.old.room }
{
    // putting never fails
    let _ = put_sentence(line, bytes, work, rows);
    line.put_byte(b'\n');
}
