// A floorplan as an SVG drawing: the chip's columns and blocks, the regions over them, the box, and what is said of each region.
#![tactic(auto)]

mod chip;
mod elements;
mod frame;
mod legend;
mod places;
mod regions;
mod styles;

use blocks::Floorplan;
use chip::draw_chip;
use describing::say_regions;
use frame::{draw_axes, draw_titles, end_sheet, start_sheet};
use legend::draw_legend;
use pen::{Form, Lines, Pen};
use places::words_top;
use regions::{draw_box, draw_regions};
use std::fmt;
use std::io::Stdout;

// Draws the sheet but for the words about the regions, which go down to `bottom`.
fn draw_sheet(lines: &mut Lines, plan: Floorplan, bottom: usize) -> fmt::Result {
    let grid = plan.grid();
    start_sheet(lines, grid, bottom)?;
    draw_titles(lines, plan)?;
    draw_chip(lines, grid)?;
    draw_axes(lines, grid)?;
    draw_regions(lines, plan)?;
    draw_box(lines, plan)?;
    draw_legend(lines, grid)
}

// How far down the words about the regions go that begin at a height: they are said with a dry pen.
fn bottom_of(line: &mut [u8], plan: Floorplan, top: usize) -> Result<usize, fmt::Error> {
    let mut lines = Lines::new(Pen::new(Form::Svg { y: top }, None), line);
    say_regions(&mut lines, plan)?;
    match lines.pen.form {
        Form::Svg { y } => Ok(y),
        Form::Text => Ok(top),
    }
}

// Writes a floorplan as an SVG drawing.
pub fn render(out: Stdout, line: &mut [u8], plan: Floorplan) -> fmt::Result {
    let top = words_top(plan.grid());
    let bottom = bottom_of(line, plan, top)?;
    let mut lines = Lines::new(Pen::new(Form::Svg { y: top }, Some(out)), line);
    draw_sheet(&mut lines, plan, bottom)?;
    say_regions(&mut lines, plan)?;
    end_sheet(&mut lines)
}
