// Elements of an SVG drawing, a line each.
use crate::places::Area;
use pen::Lines;
use std::fmt;
use std::fmt::Display;

// A rectangle, drawn as a style says.
pub fn draw_area(lines: &mut Lines, area: Area, style: &str) -> fmt::Result {
    lines.write_line(format_args!("<rect {area} {style}/>"))
}

// Words, or a number, at a place.
pub fn draw_words<D: Display>(lines: &mut Lines, x: usize, y: usize, words: &D) -> fmt::Result {
    lines.write_line(format_args!("<text x=\"{x}\" y=\"{y}\">{words}</text>"))
}
