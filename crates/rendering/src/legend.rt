// What the drawing's colours and lines mean, at the right of the chip.
use crate::elements::{draw_area, draw_words};
use crate::places::{Area, TOP, legend_left};
use crate::styles;
use blocks::Grid;
use pen::Lines;
use std::fmt;

// How far the entries stand apart.
const ENTRY: usize = 30;

// A piece of the drawing, and what it means: what is below the regions, then what a region is, the box, and a cut.
const ENTRIES: [(&str, &str); 7] = [
    (styles::CLB, "CLB (column of kind C)"),
    (styles::RAM, "RAM block (kind R)"),
    (styles::MULTIPLIER, "multiplier block (kind M)"),
    (styles::NO_BLOCK, "no block above the last whole one"),
    (styles::REGION, "region of a module"),
    (styles::OUTER, "box of the floorplan"),
    (styles::CUT_WHOLE, "block that a region cuts: not counted"),
];

// The legend.
pub fn draw_legend(lines: &mut Lines, grid: Grid) -> fmt::Result {
    let x = legend_left(grid);
    for (place, (style, words)) in ENTRIES.iter().enumerate() {
        let y = TOP + ENTRY * place;
        let area = Area { x, y, w: 28, h: 20 };
        draw_area(lines, area, style)?;
        draw_words(lines, x + 38, y + 15, words)?;
    }
    Ok(())
}
