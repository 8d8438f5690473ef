// `slot T X Y`: looks at the slot of node t at a corner in the lent work: slot BYTES
ghost use Rattle.std.specs.Prelude.{◌≡◌, ◌≤◌, ◌<◌};

use rules::{Columns, Corner, Design, MOST_COLUMNS, MOST_MODULES, MOST_ROWS, Rows};
use slots::{Board, slot_start};
use spelling::token_count;
use std::fmt;
use std::fmt::Write;
use telling::{Hex, Text};
use words::{Why, numbers_in, words};

// Where the slot of node t stands at a corner of a chip so wide and high.
// stays: (d) the line says a node and a corner by three numbers, tested one by one before there is a corner, here and below.
fn start_of(width: usize, height: usize, t: usize, x: usize, y: usize) -> usize
    requires { (width ≤ 64) × (height ≤ 64) × (t < 31) × (x < width) × (y < height) }
{
    let board = Board {
        width: Columns(width),
        height: Rows(height),
        listed: Rows(height),
    };
    let at = Corner {
        x: Columns(x),
        y: Rows(y),
    };
    slot_start(board, t, at)
}

// Where the slot of node t at a corner stands, if the design is within the limits, t is a node, and the corner is on the chip.
fn place_of(design: Design, t: usize, x: usize, y: usize) -> Option<usize> {
    let width = design.chip.width.0;
    let height = design.chip.height.0;
    if width > MOST_COLUMNS || height > MOST_ROWS || design.modules > MOST_MODULES {
        return None;
    }
    if t >= token_count(design.modules) || x >= width || y >= height {
        return None;
    }
    Some(start_of(width, height, t, x, y))
}

// The slot of node t at a corner, if the design has it and its bytes are lent.
fn slot_in(design: Design, work: &[u8], t: usize, x: usize, y: usize) -> Option<&[u8]> {
    let start = place_of(design, t, x, y)?;
    work.get(start..)?.get(..design.chip.width.0)
}

pub fn look(line: &[u8], design: Design, work: &[u8], text: &mut Text) -> Result<fmt::Result, Why>
    ensures { text.new.room ≡ text.old.room }
{
    let mut said = [0usize; 3];
    numbers_in(b' ', words(line, 1, 3), &mut said)?;
    let [t, x, y] = said;
    let slot = slot_in(design, work, t, x, y).ok_or(Why::NoRoom)?;
    Ok(writeln!(text, "slot {}", Hex(slot)))
}
