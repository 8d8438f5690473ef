// The chip below the regions: its columns by kind, and each block with its edges.
use crate::elements::draw_area;
use crate::places::{Area, CELL, LEFT, TOP, across, area_of, column_left, up};
use crate::styles;
use blocks::{Column, Grid, Kind};
use pen::Lines;
use rules::Columns;
use std::fmt;

// The whole chip.
fn draw_ground(lines: &mut Lines, grid: Grid) -> fmt::Result {
    let area = Area {
        x: LEFT,
        y: TOP,
        w: across(grid.width()),
        h: up(grid.height()),
    };
    draw_area(lines, area, styles::NO_BLOCK)
}

// A column of CLBs, by the pattern of one.
fn draw_clbs(lines: &mut Lines, column: Column) -> fmt::Result {
    let area = Area {
        x: column_left(Columns(column.x)),
        y: TOP,
        w: CELL,
        h: up(column.grid.height()),
    };
    draw_area(lines, area, "fill=\"url(#clb)\"")
}

// A column of blocks, in the colour of their kind.
fn draw_blocks(lines: &mut Lines, column: Column, style: &str) -> fmt::Result {
    // stays: (d) the ranges, here and below, name blocks and columns, and index no slice.
    for j in 0..column.many() {
        draw_area(lines, area_of(column.grid, column.block(j).place), style)?;
    }
    Ok(())
}

// The chip.
pub fn draw_chip(lines: &mut Lines, grid: Grid) -> fmt::Result {
    draw_ground(lines, grid)?;
    for x in 0..grid.width().0 {
        let column = grid.column(x);
        match column.kind() {
            Kind::Clb => draw_clbs(lines, column)?,
            Kind::Ram => draw_blocks(lines, column, styles::RAM)?,
            Kind::Multiplier => draw_blocks(lines, column, styles::MULTIPLIER)?,
        }
    }
    Ok(())
}
