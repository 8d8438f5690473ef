// What the draw program does with its input: a header line, a design's bytes and the plan program's text. It draws the plan's
// rows if the checker passes them, and says otherwise why nothing is drawn.
#![tactic(auto)]

mod input;
mod refusing;

ghost use Rattle.std.specs.Prelude.{◌≤◌};
ghost use Rattle.rules.specs.Design.{most_columns, most_rows};
ghost use Rattle.blocks.specs.Drawable.{Drawable};

use blocks::Floorplan;
use cellweaver::{check, read};
use input::{Format, ROWS_SIZE, parts_in, rows_in};
use pen::{Form, LINE_SIZE, Lines, Pen};
use refusing::{Replied, Undrawn};
use rendering::render;
use rules::{Design, MOST_COLUMNS, MOST_ROWS, Refusal, Shape};
use sketching::sketch;
use std::fmt;
use std::io::Stdout;
use taking::take_or_say;

// More bytes than a header, a design and a plan's text have.
const INPUT_SIZE: usize = 8_192;

// A design and rows that the checker has passed, and the plan's box, which is no larger than the largest chip.
#[derive(Clone, Copy)]
struct Stored {
    design: Design,
    rows: [u8; ROWS_SIZE],
    size: Shape,
    ghost drawable: { Drawable design rows },
    ghost wide: { size.w.0 ≤ most_columns },
    ghost high: { size.h.0 ≤ most_rows },
}

// Somebody refuses.
fn refused(who: &'static str, e: Refusal) -> Undrawn {
    Undrawn::Refused {
        who,
        reply: Replied::from(e),
    }
}

// What can be drawn, if the checker passes the rows.
fn judged(design: Design, rows: [u8; ROWS_SIZE], size: Shape) -> Result<Stored, Undrawn> {
    let reply = check(design, &rows);
    if let Err(e) = reply {
        return Err(refused("the checker", e));
    }
    if size.w.0 > MOST_COLUMNS || size.h.0 > MOST_ROWS {
        return Err(Undrawn::Unreadable);
    }
    Ok(Stored { design, rows, size })
}

// What can be drawn of a design by the plan's text, if the plan is done.
fn planned(bytes: &[u8], plan: Result<Shape, Replied>, lines: &[u8]) -> Result<Stored, Undrawn> {
    let size = plan.map_err(|reply| Undrawn::Refused { who: "plan", reply })?;
    let handed = read(bytes);
    if let Err(e) = handed.reply {
        return Err(refused("read", e));
    }
    let rows = rows_in(lines, handed.design.modules).ok_or(Undrawn::Unreadable)?;
    judged(handed.design, rows, size)
}

// How to draw, and what, as the input says.
fn asked_in(input: &[u8]) -> Result<(Format, Stored), Undrawn> {
    let parts = parts_in(input).ok_or(Undrawn::Unreadable)?;
    let stored = planned(parts.design, parts.plan, parts.lines)?;
    Ok((parts.format, stored))
}

// Draws what has passed.
fn draw_stored(out: Stdout, line: &mut [u8], format: Format, stored: &Stored) -> fmt::Result {
    let plan = Floorplan {
        design: &stored.design,
        rows: &stored.rows,
        size: stored.size,
    };
    match format {
        Format::Text => sketch(out, line, plan),
        Format::Svg => render(out, line, plan),
    }
}

// Draws what the input says, or says why nothing is drawn; an error where a line could not be written.
pub fn draw(out: Stdout, input: &[u8], line: &mut [u8]) -> fmt::Result {
    match asked_in(input) {
        Ok((format, stored)) => draw_stored(out, line, format, &stored),
        Err(why) => Lines::new(Pen::new(Form::Text, Some(out)), line).write_line(why),
    }
}

// Draws what standard input says. Where a line could not be written, the drawing lacks its last line, and that is said.
pub fn run_draw(rt: HostRuntime) {
    let mut input = [0u8; INPUT_SIZE];
    let mut line = [0u8; LINE_SIZE];
    let (Ok(read) | Err(read)) = take_or_say(&rt, &mut input);
    if draw(rt.stdout(), read, &mut line).is_err() {
        let _ = rt.eprintln("draw: a line could not be written");
    }
}
