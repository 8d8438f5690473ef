// The parts of the draw program's input: a header line, a design's bytes and the plan program's text.
use crate::refusing::Replied;
use blocks::Region;
use check::same;
use rows::row_out;
use rules::{Columns, Corner, MOST_MODULES, Rectangle, Rows, Shape};
use words::{count, number_in, numbers_in, word, words};

// Bytes for the rows of any design.
pub const ROWS_SIZE: usize = 4 * MOST_MODULES;

const MOST_BYTE: usize = 255;

// How a floorplan is drawn.
#[derive(Clone, Copy)]
pub enum Format {
    Text,
    Svg,
}

// The first line, `text LENGTH` or `svg LENGTH`, with the number of the design's bytes.
#[derive(Clone, Copy)]
struct Header {
    format: Format,
    length: usize,
}

// What the input says: the plan's answer is its box or a refusal, and each of its other lines is a row.
#[derive(Clone, Copy)]
pub struct Parts<'a> {
    pub format: Format,
    pub design: &'a [u8],
    pub plan: Result<Shape, Replied>,
    pub lines: &'a [u8],
}

// The first line of a text, if it ends, and what follows it.
fn line_of(text: &[u8]) -> Option<(&[u8], &[u8])> {
    let end = text.iter().position(|b| *b == b'\n')?;
    Some((&text[..end], &text[end + 1..]))
}

// The header in a line.
fn header_in(line: &[u8]) -> Option<Header> {
    let format = match word(line, 0) {
        b"text" => Format::Text,
        b"svg" => Format::Svg,
        _ => return None,
    };
    if count(line) != 2 {
        return None;
    }
    let length = number_in(word(line, 1)).ok()?;
    Some(Header { format, length })
}

// The plan's answer in its first line: `plan 0 W H`, or `plan NUMBER POSITION`.
fn plan_in(line: &[u8]) -> Option<Result<Shape, Replied>> {
    let mut said = [0usize; 3];
    let numbers = numbers_in(b' ', words(line, 1, 3), &mut said).is_ok()
        || numbers_in(b' ', words(line, 1, 2), &mut said).is_ok();
    let [number, first, second] = said;
    let many = if number == 0 { 4 } else { 3 };
    if !numbers || !same(word(line, 0), b"plan") || count(line) != many {
        return None;
    }
    if number != 0 {
        return Some(Err(Replied {
            number,
            value: first,
        }));
    }
    Some(Ok(Shape {
        w: Columns(first),
        h: Rows(second),
    }))
}

// The parts of an input.
pub fn parts_in(input: &[u8]) -> Option<Parts<'_>> {
    let (first, rest) = line_of(input)?;
    let header = header_in(first)?;
    let (design, text) = rest.split_at_checked(header.length)?;
    let (first, lines) = line_of(text)?;
    Some(Parts {
        format: header.format,
        design,
        plan: plan_in(first)?,
        lines,
    })
}

// The region of module k that a line says, `k x y w h`: its numbers are bytes.
fn region_in(line: &[u8], k: usize) -> Option<Region> {
    let mut said = [0usize; 5];
    if count(line) != 5 || numbers_in(b' ', line, &mut said).is_err() {
        return None;
    }
    let [number, x, y, w, h] = said;
    if number != k || x > MOST_BYTE || y > MOST_BYTE || w > MOST_BYTE || h > MOST_BYTE {
        return None;
    }
    let corner = Corner {
        x: Columns(x),
        y: Rows(y),
    };
    let shape = Shape {
        w: Columns(w),
        h: Rows(h),
    };
    Some(Region {
        rectangle: Rectangle { corner, shape },
    })
}

// The rows that a text says, a line for each module and nothing after them. No design has more modules than there are rows.
pub fn rows_in(text: &[u8], modules: usize) -> Option<[u8; ROWS_SIZE]> {
    let mut rows = [0u8; ROWS_SIZE];
    let mut rest = text;
    // stays: (d) k names a module, whose line has to say it, and whose row is stored.
    for k in 0..modules.min(MOST_MODULES) {
        let (line, after) = line_of(rest)?;
        row_out(&mut rows, k, region_in(line, k)?.rectangle);
        rest = after;
    }
    if rest.is_empty() { Some(rows) } else { None }
}
