// The sheet around the chip: where it begins and ends, its title, and the axes.
ghost use Rattle.std.specs.Prelude.{◌<◌};

use crate::elements::draw_words;
use crate::places::{CELL, LEFT, TOP, column_left, rows_top, sheet_width};
use crate::styles;
use blocks::{Floorplan, Grid, Kind};
use describing::{Amount, letter_of};
use pen::Lines;
use rules::{Columns, Rows};
use std::fmt;

// The pattern of CLBs, a cell each from the chip's corner on.
fn draw_clb_pattern(lines: &mut Lines) -> fmt::Result {
    let style = styles::CLB;
    lines.write_line(format_args!(
        "<pattern id=\"clb\" patternUnits=\"userSpaceOnUse\" x=\"{LEFT}\" y=\"{TOP}\" width=\"{CELL}\" height=\"{CELL}\">\
         <rect width=\"{CELL}\" height=\"{CELL}\" {style}/></pattern>"
    ))
}

// The pattern of what a region has of a block that it cuts.
fn draw_cut_pattern(lines: &mut Lines) -> fmt::Result {
    lines.write_line(
        "<pattern id=\"cut\" patternUnits=\"userSpaceOnUse\" width=\"7\" height=\"7\" patternTransform=\"rotate(45)\">\
         <rect width=\"7\" height=\"7\" fill=\"#ffffff\"/><rect width=\"3\" height=\"7\" fill=\"#c00020\"/></pattern>",
    )
}

// Starts a sheet that goes down to `bottom`.
pub fn start_sheet(lines: &mut Lines, grid: Grid, bottom: usize) -> fmt::Result {
    let wide = sheet_width(grid);
    lines.write_line(format_args!(
        "<svg xmlns=\"http://www.w3.org/2000/svg\" width=\"{wide}\" height=\"{bottom}\" viewBox=\"0 0 {wide} {bottom}\" \
         font-family=\"Helvetica, Arial, sans-serif\" font-size=\"13\" fill=\"#222222\">"
    ))?;
    draw_clb_pattern(lines)?;
    draw_cut_pattern(lines)?;
    lines.write_line("<rect width=\"100%\" height=\"100%\" fill=\"#ffffff\"/>")
}

// Ends the sheet. A reader sees by it that the drawing is whole.
pub fn end_sheet(lines: &mut Lines) -> fmt::Result {
    lines.write_line("</svg>")
}

// How many modules, and how large the chip, its blocks and the box are.
pub fn draw_titles(lines: &mut Lines, plan: Floorplan) -> fmt::Result {
    let grid = plan.grid();
    let modules = Amount(plan.modules(), "module");
    lines.write_line(format_args!(
        "<text x=\"24\" y=\"32\" font-size=\"18\" font-weight=\"bold\">Floorplan of {modules}</text>"
    ))?;
    let columns = Amount(grid.width().0, "column");
    let rows = Amount(grid.height().0, "row");
    let high = Amount(grid.chip.block.0, "row");
    let box_columns = Amount(plan.size.w.0, "column");
    let box_rows = Amount(plan.size.h.0, "row");
    let words = format_args!(
        "Chip: {columns}, {rows}; blocks {high} high. Box: {box_columns}, {box_rows}."
    );
    draw_words(lines, 24, 54, &words)
}

// The numbers and the kinds of the columns, below the chip.
fn draw_column_numbers(lines: &mut Lines, grid: Grid) -> fmt::Result {
    let below = rows_top(grid, Rows(0));
    for (x, kind) in grid.kinds().iter().enumerate() {
        let middle = column_left(Columns(x)) + CELL / 2;
        draw_words(lines, middle, below + 20, &x)?;
        draw_words(lines, middle, below + 37, &letter_of(Kind::from(*kind)))?;
    }
    Ok(())
}

// The number of row y, at the left.
fn draw_row_number(lines: &mut Lines, grid: Grid, y: Rows) -> fmt::Result
    requires { y.0 < grid.chip.now.height.0 }
{
    draw_words(lines, LEFT - 10, rows_top(grid, y) - 10, &y.0)
}

// The numbers of the rows.
fn draw_row_numbers(lines: &mut Lines, grid: Grid) -> fmt::Result {
    // stays: (d) y names a row, and indexes no slice.
    for y in 0..grid.height().0 {
        draw_row_number(lines, grid, Rows(y))?;
    }
    Ok(())
}

// The axis of the rows, at the left, and the names of the lines below the chip.
fn draw_row_axis(lines: &mut Lines, grid: Grid) -> fmt::Result {
    let below = rows_top(grid, Rows(0));
    lines.write_line("<g font-size=\"11\" text-anchor=\"end\">")?;
    draw_words(lines, LEFT - 10, TOP - 8, &"row")?;
    draw_row_numbers(lines, grid)?;
    draw_words(lines, LEFT - 10, below + 20, &"column")?;
    draw_words(lines, LEFT - 10, below + 37, &"kind")
}

// The axes: rows at the left, columns and their kinds below.
pub fn draw_axes(lines: &mut Lines, grid: Grid) -> fmt::Result {
    draw_row_axis(lines, grid)?;
    lines.write_line("</g>\n<g font-size=\"11\" text-anchor=\"middle\">")?;
    draw_column_numbers(lines, grid)?;
    lines.write_line("</g>")
}
