// The services as a line asks them: which one, what the line says to it, and its answer as a line of text. The design that a
// service hands back is then held.
ghost use Rattle.std.specs.Prelude.{◌≡◌, OnErr};

use crate::looking::look;
use crate::scores::score;
use crate::writes::write;
use keeping::is_kept;
use replies::{Numbered, number_of};
use rules::{Design, Refusal, Shape};
use spelling::{Told, edit_in};
use std::fmt;
use std::fmt::Write;
use telling::{Hash, Hex, Text};
use words::{MOST_SAID, Why, bytes_in, count, word};

// A reply's number, and what is said beside it.
fn said(reply: Result<(), Refusal>) -> Numbered {
    match reply {
        Ok(()) => Numbered(0, 0),
        Err(e) => number_of(e),
    }
}

// `read BYTES`: reads a design: read NUMBER POSITION DESIGN
fn read(line: &[u8], design: &mut Design, text: &mut Text) -> Result<fmt::Result, Why>
    ensures design { OnErr result (design.new ≡ design.old) }
    ensures room { text.new.room ≡ text.old.room }
{
    let mut bytes = [0u8; MOST_SAID];
    let n = bytes_in(word(line, 1), &mut bytes)?;
    let handed = cellweaver::read(&bytes[..n]);
    *design = handed.design;
    let Numbered(number, position) = said(handed.reply);
    Ok(writeln!(text, "read {number} {position} {}", Told(handed.design)))
}

// `edit turn T` and `edit need K CLBS RAMS MULTIPLIERS`: edits the design: edit NUMBER DESIGN WORK
fn edit(
    line: &[u8],
    design: &mut Design,
    work: &mut [u8],
    text: &mut Text,
) -> Result<fmt::Result, Why>
    ensures design { OnErr result (design.new ≡ design.old) }
    ensures room { text.new.room ≡ text.old.room }
{
    let handed = cellweaver::edit(*design, edit_in(line)?, work);
    *design = handed.design;
    let Numbered(number, _) = said(handed.reply);
    let told = Told(handed.design);
    Ok(writeln!(text, "edit {number} {told} {}", Hash(work)))
}

// Lists: list NUMBER WORK
fn list(design: Design, work: &mut [u8], text: &mut Text) -> fmt::Result
    ensures { text.new.room ≡ text.old.room }
{
    let Numbered(number, _) = said(cellweaver::list(design, work));
    writeln!(text, "list {number} {}", Hash(work))
}

// Checks: check NUMBER WHICH
fn check(design: Design, rows: &[u8], text: &mut Text) -> fmt::Result
    ensures { text.new.room ≡ text.old.room }
{
    let Numbered(number, which) = said(cellweaver::check(design, rows));
    writeln!(text, "check {number} {which}")
}

// What a plan or a place comes to, whose rows are shown if it is done: NAME NUMBER W H ROWS WORK
fn put_planned(
    name: &str,
    planned: Result<Shape, Refusal>,
    rows: &[u8],
    work: &[u8],
    text: &mut Text,
) -> fmt::Result
    ensures { text.new.room ≡ text.old.room }
{
    match planned {
        Ok(s) => {
            write!(text, "{name} 0 {} {} {}", s.w.0, s.h.0, Hex(rows))?;
        }
        Err(e) => write!(text, "{name} {} 0 0 -", number_of(e).0)?,
    }
    writeln!(text, " {}", Hash(work))
}

// Why a line asks nothing: its first word is that of no request, or it has more or fewer words than the request.
fn why_unknown(line: &[u8]) -> Why {
    match word(line, 0) {
        b"read" | b"write" | b"list" | b"plan" | b"place" | b"edit" | b"check" | b"slot" => {
            Why::WrongCount
        }
        _ if is_kept(line) => Why::WrongCount,
        _ => Why::NoRequest,
    }
}

// Asks the service that a line names, over the design that is held and the bytes that are lent, and puts its answer; a line that
// names none is bad. A score may have any number of words, so its name alone tells it.
pub fn answer(
    line: &[u8],
    design: &mut Design,
    work: &mut [u8],
    rows: &mut [u8],
    text: &mut Text,
) -> Result<fmt::Result, Why>
    ensures design { OnErr result (design.new ≡ design.old) }
    ensures room { text.new.room ≡ text.old.room }
{
    match word(line, 0) {
        b"read" if count(line) == 2 => read(line, design, text),
        b"write" if count(line) == 3 => write(line, *design, text),
        b"list" if count(line) == 1 => Ok(list(*design, work, text)),
        b"plan" if count(line) == 1 => {
            let planned = cellweaver::plan(*design, work, rows);
            Ok(put_planned("plan", planned, rows, work, text))
        }
        b"place" if count(line) == 1 => {
            let placed = cellweaver::place(*design, work, rows);
            Ok(put_planned("place", placed, rows, work, text))
        }
        b"edit" if matches!(count(line), 3 | 6) => edit(line, design, work, text),
        b"check" if count(line) == 1 => Ok(check(*design, rows, text)),
        b"slot" if count(line) == 4 => look(line, *design, work, text),
        b"score" => score(line, *design, rows, text),
        _ => Err(why_unknown(line)),
    }
}
