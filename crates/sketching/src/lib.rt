// A floorplan as text: a row to a line, from above, with a sign for the module that has each cell.
#![tactic(auto)]

ghost use Rattle.std.specs.Prelude.{◌≡◌, ◌≤◌, ◌<◌};
ghost use Rattle.rules.specs.Chip.{rectangle};

use blocks::{Floorplan, Grid, Kind, Region};
use describing::{Amount, letter_of, say_regions, sign_of};
use pen::{Form, Lines, Pen};
use rules::{Columns, Corner, Rectangle, Rows, Shape};
use std::fmt;
use std::fmt::{Display, Write};
use std::io::Stdout;

const NO_MODULE: char = '.';

// How many digits the number of the highest row has.
fn digits_of(grid: Grid) -> usize
    ensures { result ≤ 3 }
{
    match grid.height().0 - 1 {
        0..=9 => 1,
        10..=99 => 2,
        _ => 3,
    }
}

// The cell in column x and row y.
fn cell(x: usize, y: usize) -> Region
    requires { (x < 256) × (y < 256) }
    ensures { result.rectangle ≡ rectangle x y 1 1 }
{
    let corner = Corner {
        x: Columns(x),
        y: Rows(y),
    };
    let shape = Shape {
        w: Columns(1),
        h: Rows(1),
    };
    Region {
        rectangle: Rectangle { corner, shape },
    }
}

// The sign of the module that has a cell.
fn sign_at(plan: Floorplan, cell: Region) -> char {
    (0..plan.modules())
        .find(|k| plan.region(*k).meets(cell))
        .map_or(NO_MODULE, sign_of)
}

// Row y: its number, as wide as that of the highest row, and a sign for each cell.
#[derive(Clone, Copy)]
struct Row<'a> {
    plan: Floorplan<'a>,
    y: usize,
    ghost on_chip: { y < plan.design.now.chip.height.0 },
}

impl<'a> Display for Row<'a> {
    fn fmt<W: Write>(&self, f: &mut fmt::Formatter<W>) -> fmt::Result {
        let grid = self.plan.grid();
        let wide = digits_of(grid);
        write!(f, "{:wide$} ", self.y)?;
        // stays: (d) the ranges, here and below, name columns and rows, and index no slice.
        for x in 0..grid.width().0 {
            let sign = sign_at(self.plan, cell(x, self.y));
            write!(f, " {sign}")?;
        }
        Ok(())
    }
}

// The kinds of the columns, each below its column.
#[derive(Clone, Copy)]
struct Kinds<'a>(Grid<'a>);

impl<'a> Display for Kinds<'a> {
    fn fmt<W: Write>(&self, f: &mut fmt::Formatter<W>) -> fmt::Result {
        let wide = digits_of(self.0);
        write!(f, "{:wide$} ", "")?;
        for kind in self.0.kinds() {
            let letter = letter_of(Kind::from(*kind));
            write!(f, " {letter}")?;
        }
        Ok(())
    }
}

// Writes the rows, from above.
fn write_rows(lines: &mut Lines, plan: Floorplan) -> fmt::Result {
    for y in (0..plan.grid().height().0).rev() {
        lines.write_line(Row { plan, y })?;
    }
    Ok(())
}

// Writes how high the blocks are.
fn write_blocks(lines: &mut Lines, block: Rows) -> fmt::Result {
    let high = Amount(block.0, "row");
    lines.write_line(format_args!("RAM and multiplier blocks: {high} each, from row 0\n"))
}

// Writes the picture: rows, kinds, and how large the box and the blocks are.
fn write_picture(lines: &mut Lines, plan: Floorplan) -> fmt::Result {
    let grid = plan.grid();
    let columns = Amount(plan.size.w.0, "column");
    let rows = Amount(plan.size.h.0, "row");
    write_rows(lines, plan)?;
    lines.write_line(Kinds(grid))?;
    lines.write_line(format_args!("\nbox from the lower left corner: {columns}, {rows}"))?;
    write_blocks(lines, grid.chip.block)
}

// Writes a floorplan as text. The last line tells a reader that the drawing is whole.
pub fn sketch(out: Stdout, line: &mut [u8], plan: Floorplan) -> fmt::Result {
    let mut lines = Lines::new(Pen::new(Form::Text, Some(out)), line);
    write_picture(&mut lines, plan)?;
    say_regions(&mut lines, plan)?;
    let modules = Amount(plan.modules(), "module");
    let cuts = lines.pen.cuts;
    lines.write_line(format_args!("\ndrawn: {modules}, cuts of blocks: {cuts}"))
}
