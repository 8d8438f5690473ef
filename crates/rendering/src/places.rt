// Where things stand on the sheet, in pixels from its upper left corner.
ghost use Rattle.std.specs.Prelude.{◌≡◌, ◌+◌, ◌-◌, ◌*◌, ◌≤◌, max};
ghost use Rattle.rules.specs.Design.{most_rows};
ghost use Rattle.rendering.specs.Sheet.{OnSheet};

use blocks::{Grid, Region};
use rules::{Columns, Rows};
use std::fmt;

// A cell's side.
pub const CELL: usize = 28;

// Where the chip's upper left corner stands.
pub const LEFT: usize = 64;

pub const TOP: usize = 88;

// What the axes take below the chip, and the least height of chip and axes, so that the legend beside them has room.
const AXES: usize = 76;

const LEAST: usize = 232;

// What the legend takes beside the chip, and the least width of the sheet, so that the words have room.
const LEGEND: usize = 320;

const LEAST_WIDTH: usize = 800;

const MARGIN: usize = 24;

// A rectangle of the sheet, in pixels.
#[derive(Clone, Copy)]
pub struct Area {
    pub x: usize,
    pub y: usize,
    pub w: usize,
    pub h: usize,
}

// As the attributes of an element.
impl fmt::Display for Area {
    fn fmt<W: fmt::Write>(&self, f: &mut fmt::Formatter<W>) -> fmt::Result {
        let Area { x, y, w, h } = *self;
        write!(f, "x=\"{x}\" y=\"{y}\" width=\"{w}\" height=\"{h}\"")
    }
}

// How far so many columns reach across the sheet.
pub fn across(columns: Columns) -> usize
    requires { columns.0 ≤ 256 }
    ensures { result ≡ 28 * columns.0 }
{
    CELL * columns.0
}

// How far so many rows reach up it.
pub fn up(rows: Rows) -> usize
    requires { rows.0 ≤ 256 }
    ensures { result ≡ 28 * rows.0 }
{
    CELL * rows.0
}

// Where a column begins from the left.
pub fn column_left(x: Columns) -> usize
    requires { x.0 ≤ 256 }
    ensures { (result ≡ 64 + 28 * x.0) × (result ≤ 8192) }
{
    LEFT + across(x)
}

// How many rows of the chip lie above those below `far`.
fn rows_above(grid: Grid, far: Rows) -> Rows
    ensures { (result.0 ≡ grid.entry.chip.now.height.0 - far.0) × (result.0 ≤ most_rows) }
{
    Rows(grid.height().0.saturating_sub(far.0))
}

// Where the rows below `far` begin from above.
pub fn rows_top(grid: Grid, far: Rows) -> usize
    ensures { (88 ≤ result) × (result ≤ 8192) }
{
    TOP + up(rows_above(grid, far))
}

// The area of a region of the chip.
pub fn area_of(grid: Grid, r: Region) -> Area
    ensures { OnSheet result }
{
    Area {
        x: column_left(r.left()),
        y: rows_top(grid, r.top()),
        w: across(r.rectangle.shape.w),
        h: up(r.rectangle.shape.h),
    }
}

// Where the legend begins from the left.
pub fn legend_left(grid: Grid) -> usize
    ensures { (result ≡ 88 + 28 * grid.entry.chip.now.width.0) × (result ≤ 8300) }
{
    column_left(grid.width()) + MARGIN
}

// Where the words about the regions begin from above.
pub fn words_top(grid: Grid) -> usize
    ensures { (result ≡ 88 + max (28 * grid.entry.chip.now.height.0 + 76) 232) × (result ≤ 8192) }
{
    TOP + (up(grid.height()) + AXES).max(LEAST)
}

// How wide the sheet is.
pub fn sheet_width(grid: Grid) -> usize {
    (legend_left(grid) + LEGEND).max(LEAST_WIDTH)
}
