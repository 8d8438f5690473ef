// The regions over the chip, each with its name, what they have of the blocks that they cut, and the box.
use crate::elements::draw_area;
use crate::places::{Area, CELL, LEFT, across, area_of, column_left, rows_top, up};
use crate::styles;
use blocks::{Block, Floorplan, Grid, Module, Region};
use pen::Lines;
use rules::Shape;
use std::fmt;

// A name is so long, and a letter so high; an area has to be so long for the name to fit.
const NAME: usize = 76;

const LETTERS: usize = 20;

const LEAST_NAMED: usize = 84;

// How far an outline stands inside or outside of its rectangle.
const GAP: usize = 4;

// How a module is named in its region: along the columns or up the rows, or by its number where the name has no room.
#[derive(Clone, Copy, PartialEq, Eq)]
enum Label {
    Along,
    Up,
    Number,
}

// How a module is named in an area.
fn label_in(a: Area) -> Label {
    if LEAST_NAMED <= a.w {
        Label::Along
    } else if LEAST_NAMED <= a.h {
        Label::Up
    } else {
        Label::Number
    }
}

// How wide and how high a label is.
fn sides_of(label: Label) -> (usize, usize) {
    match label {
        Label::Along => (NAME, LETTERS),
        Label::Up => (LETTERS, NAME),
        Label::Number => (LETTERS, LETTERS),
    }
}

// The area of the rows of a block that a region has.
fn part_of(grid: Grid, r: Region, block: Block) -> Area {
    let rows = r.common_rows(block.place);
    let x = column_left(block.place.left());
    let y = rows_top(grid, rows.far);
    let h = rows_top(grid, rows.low).saturating_sub(y);
    Area { x, y, w: CELL, h }
}

// What the region has of each block that it cuts, hatched, and the whole block's edge.
fn draw_cuts(lines: &mut Lines, grid: Grid, r: Region) -> fmt::Result {
    grid.each_cut(r, |block| {
        draw_area(lines, part_of(grid, r, block), styles::CUT)?;
        draw_area(lines, area_of(grid, block.place), styles::CUT_EDGE)
    })
}

// A region's outline, a little inside of it.
fn draw_outline(lines: &mut Lines, grid: Grid, r: Region) -> fmt::Result {
    let a = area_of(grid, r);
    let outline = Area {
        x: a.x + GAP / 2,
        y: a.y + GAP / 2,
        w: a.w.saturating_sub(GAP),
        h: a.h.saturating_sub(GAP),
    };
    draw_area(lines, outline, styles::REGION)
}

// Names a module in the middle of its region, over a light ground of the name's own.
fn draw_name(lines: &mut Lines, grid: Grid, module: Module) -> fmt::Result {
    let a = area_of(grid, module.region);
    let label = label_in(a);
    let (w, h) = sides_of(label);
    let (x, y) = (a.x + a.w / 2, a.y + a.h / 2);
    let ground = Area {
        x: x.saturating_sub(w / 2),
        y: y.saturating_sub(h / 2),
        w,
        h,
    };
    draw_area(lines, ground, styles::NAME)?;
    let turn = if label == Label::Up {
        " rotate(-90)"
    } else {
        ""
    };
    let word = if label == Label::Number {
        ""
    } else {
        "module "
    };
    let k = module.number;
    lines.write_line(format_args!(
        "<text y=\"5\" text-anchor=\"middle\" font-weight=\"bold\" transform=\"translate({x} {y}){turn}\">{word}{k}</text>"
    ))
}

// Outlines the regions.
fn draw_outlines(lines: &mut Lines, plan: Floorplan) -> fmt::Result {
    // stays: (d) k names a module, here and below; the three differ in a call, and a closure for it would be longer.
    for k in 0..plan.modules() {
        draw_outline(lines, plan.grid(), plan.region(k))?;
    }
    Ok(())
}

// Hatches what the regions have of blocks that they cut.
fn draw_all_cuts(lines: &mut Lines, plan: Floorplan) -> fmt::Result {
    for k in 0..plan.modules() {
        draw_cuts(lines, plan.grid(), plan.region(k))?;
    }
    Ok(())
}

// Names the regions.
fn draw_names(lines: &mut Lines, plan: Floorplan) -> fmt::Result {
    for k in 0..plan.modules() {
        draw_name(lines, plan.grid(), plan.module(k))?;
    }
    Ok(())
}

// The regions: outlines over what is below, cuts over those so that none is hidden, and the names last.
pub fn draw_regions(lines: &mut Lines, plan: Floorplan) -> fmt::Result {
    draw_outlines(lines, plan)?;
    draw_all_cuts(lines, plan)?;
    draw_names(lines, plan)
}

// The box, from the chip's lower left corner.
pub fn draw_box(lines: &mut Lines, plan: Floorplan) -> fmt::Result {
    let Shape { w, h } = plan.size;
    let area = Area {
        x: LEFT - GAP,
        y: rows_top(plan.grid(), h) - GAP,
        w: across(w) + 2 * GAP,
        h: up(h) + 2 * GAP,
    };
    draw_area(lines, area, styles::OUTER)
}
