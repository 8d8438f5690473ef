// The blocks of the chip's columns, and what a region has of a block: all its rows, some of them, or none.
#![tactic(auto)]

mod columns;
mod kind;
mod plan;

ghost use Rattle.std.specs.Prelude.{◌≡◌, ◌<◌, ◌&&◌, min, max, nat_le, nat_lt};
ghost use Rattle.rules.specs.Chip.{left, right, bottom, top};
ghost use Rattle.rows.specs.Row.{Bytes};
ghost use Rattle.blocks.specs.Cut.{covers, meets, cuts};

pub use columns::{Block, Column, Grid};
pub use kind::Kind;
pub use plan::{Floorplan, Module};
use rules::{Columns, Rectangle, Rows};

// Rows from low to before far.
#[derive(Clone, Copy)]
pub struct Span {
    pub low: Rows,
    pub far: Rows,
}

// A rectangle whose numbers are bytes, as those of a row are: its sides can be counted with.
#[derive(Clone, Copy)]
pub struct Region {
    pub rectangle: Rectangle,
    pub ghost bytes: { Bytes rectangle },
}

impl Region {
    // The column that it begins at.
    pub fn left(self) -> Columns
        ensures { (result.0 ≡ left self.rectangle) × (result.0 < 256) }
    {
        self.rectangle.corner.x
    }

    // The column that it ends before.
    pub fn right(self) -> Columns
        ensures { (result.0 ≡ right self.rectangle) × (result.0 < 512) }
    {
        Columns(self.left().0 + self.rectangle.shape.w.0)
    }

    // The row that it begins at.
    fn bottom(self) -> Rows
        ensures { (result.0 ≡ bottom self.rectangle) × (result.0 < 256) }
    {
        self.rectangle.corner.y
    }

    // The row that it ends before.
    pub fn top(self) -> Rows
        ensures { (result.0 ≡ top self.rectangle) × (result.0 < 512) }
    {
        Rows(self.bottom().0 + self.rectangle.shape.h.0)
    }

    // Column x is one of its columns.
    fn has_column(self, x: usize) -> bool
        ensures { result ≡ nat_le (left self.rectangle) x && nat_lt x (right self.rectangle) }
    {
        self.left().0 <= x && x < self.right().0
    }

    // It covers all rows of a block that stands in one of its columns.
    #[tactic(auto, unfolding(crate::specs::Cut::covers))]
    pub fn covers(self, block: Region) -> bool
        ensures { result ≡ covers self.rectangle block.rectangle }
    {
        self.bottom().0 <= block.bottom().0 && block.top().0 <= self.top().0
    }

    // It has a cell in common with another.
    #[tactic(auto, unfolding(crate::specs::Cut::meets))]
    pub fn meets(self, other: Region) -> bool
        ensures { result ≡ meets self.rectangle other.rectangle }
    {
        other.left().0 < self.right().0
            && self.left().0 < other.right().0
            && other.bottom().0 < self.top().0
            && self.bottom().0 < other.top().0
    }

    // It has some rows of a block, and not all: the block is never counted.
    #[tactic(auto, unfolding(crate::specs::Cut::cuts))]
    pub fn cuts(self, block: Region) -> bool
        ensures { result ≡ cuts self.rectangle block.rectangle }
    {
        self.meets(block) && !self.covers(block)
    }

    // Its rows.
    pub fn rows(self) -> Span
        ensures { (result.low.0 ≡ bottom self.rectangle) × (result.far.0 ≡ top self.rectangle) }
    {
        Span {
            low: self.bottom(),
            far: self.top(),
        }
    }

    // The rows that it and another both have.
    pub fn common_rows(self, other: Region) -> Span
        ensures low { result.low.0 ≡ max (bottom self.rectangle) (bottom other.rectangle) }
        ensures far { result.far.0 ≡ min (top self.rectangle) (top other.rectangle) }
    {
        Span {
            low: Rows(self.bottom().0.max(other.bottom().0)),
            far: Rows(self.top().0.min(other.top().0)),
        }
    }
}
