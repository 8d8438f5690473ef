// The columns of a chip, and the blocks that stand in them.
ghost use Rattle.std.specs.Prelude.{◌≡◌, ◌<◌, ◌≤◌, length, take, IsTrue};
ghost use Rattle.rules.specs.Chip.{kind_at, column_of, column, bottom, top, covers_block};
ghost use Rattle.rules.specs.Design.{most_columns, most_rows};
ghost use Rattle.rules.specs.Search.{count};
ghost use Rattle.blocks.specs.Cut.{Within, IsBlock, cuts};
ghost use Rattle.blocks.specs.Kind.{kind_of};

use crate::Region;
use crate::kind::Kind;
use rules::{Chip, Columns, Corner, Need, Rectangle, Rows, Shape};

// A chip within the limits.
#[derive(Clone, Copy)]
pub struct Grid<'a> {
    pub chip: &'a Chip,
    pub ghost within: { Within chip.now },
}

// A column of a chip.
#[derive(Clone, Copy)]
pub struct Column<'a> {
    pub grid: Grid<'a>,
    pub x: usize,
    pub ghost there: { x < most_columns },
}

// A block, and where it stands.
#[derive(Clone, Copy)]
pub struct Block {
    pub kind: Kind,
    pub place: Region,
}

impl<'a> Grid<'a> {
    // How many columns it has.
    pub fn width(self) -> Columns
        ensures { (result.0 ≡ self.entry.chip.now.width.0) × (result.0 ≤ most_columns) }
    {
        self.chip.width
    }

    // How many rows it has.
    pub fn height(self) -> Rows
        ensures { (result.0 ≡ self.entry.chip.now.height.0) × (0 < result.0) × (result.0 ≤ most_rows) }
    {
        self.chip.height
    }

    // The number of each column's kind.
    pub fn kinds(self) -> &'a [u8]
        ensures kinds { result.now ≡ take self.entry.chip.now.width.0 self.entry.chip.now.kinds }
        ensures many { length result.now ≡ self.entry.chip.now.width.0 }
        ensures most { length result.now ≤ most_columns }
    {
        &self.chip.kinds[..self.width().0]
    }

    // Column x.
    pub fn column(self, x: usize) -> Column<'a>
        requires { x < most_columns }
        ensures { (result.grid.chip.now ≡ self.entry.chip.now) × (result.x ≡ x) }
    {
        Column { grid: self, x }
    }

    // What a region holds of each kind, block by block.
    pub fn held_by(self, r: Region) -> Need {
        let mut held = Need {
            clbs: 0,
            rams: 0,
            multipliers: 0,
        };
        // stays: (d) the ranges, here and below, name columns and blocks of a column, and index no slice.
        for x in 0..self.width().0 {
            if r.has_column(x) {
                let column = self.column(x);
                held = with_blocks(held, column.kind(), column.held_by(r));
            }
        }
        held
    }

    // Hands on each block that a region cuts, from the left and from below, until that fails.
    pub fn each_cut<E, F: FnMut(Block) -> Result<(), E>>(self, r: Region, mut f: F) -> Result<(), E>
        requires { (state : F) (b : _) → IsTrue (cuts r.rectangle b.place.rectangle) → F.pre state b }
    {
        for x in 0..self.width().0 {
            self.column(x).each_cut(r, &mut f)?;
        }
        Ok(())
    }
}

impl<'a> Column<'a> {
    // Hands on each of its blocks that a region cuts, from below, until that fails.
    fn each_cut<E, F: FnMut(Block) -> Result<(), E>>(self, r: Region, mut f: F) -> Result<(), E>
        requires there { self.x < self.grid.chip.now.width.0 }
        requires called { (state : F) (b : _) → IsTrue (cuts r.rectangle b.place.rectangle) → F.pre state b }
    {
        for j in 0..self.many() {
            let block = self.block(j);
            if r.cuts(block.place) {
                f(block)?;
            }
        }
        Ok(())
    }

    // The number of its kind.
    // stays: (a) `kind_at` and `column_of` of the rules, which the contracts name, take it, here and below.
    pub fn number(self) -> u8
        ensures { result ≡ kind_at self.entry.grid.chip.now self.entry.x }
    {
        self.grid.chip.kinds[self.x]
    }

    // Its kind.
    pub fn kind(self) -> Kind
        ensures { result ≡ kind_of (kind_at self.entry.grid.chip.now self.entry.x) }
    {
        Kind::from(self.number())
    }

    // How many blocks it has.
    pub fn many(self) -> usize
        ensures { (result ≡ (column self.entry.grid.chip.now self.entry.x).many) × (result ≤ most_rows) }
    {
        many_of(self.grid, self.number())
    }

    // Its block j, from below.
    pub fn block(self, j: usize) -> Block
        requires { j < (column self.grid.chip.now self.x).many }
        ensures { IsBlock (column self.entry.grid.chip.now self.entry.x) self.entry.x j result.place.rectangle }
    {
        let high = high_of(self.grid, self.number());
        let corner = Corner {
            x: Columns(self.x),
            y: Rows(j * high.0),
        };
        let shape = Shape {
            w: Columns(1),
            h: high,
        };
        Block {
            kind: self.kind(),
            place: Region {
                rectangle: Rectangle { corner, shape },
            },
        }
    }

    // How many of its blocks a region that has it holds.
    pub fn held_by(self, r: Region) -> usize
        ensures { let c = column self.entry.grid.chip.now self.entry.x in
            result ≡ count c.many (covers_block c (bottom r.rectangle) (top r.rectangle)) }
    {
        let many = self.many();
        let mut held = 0;
        for j in 0..many {
            if r.covers(self.block(j).place) {
                held += 1;
            }
        }
        held
    }
}

// How many blocks a column of this kind has. In a CLB column each row is a block, a CLB.
fn many_of(grid: Grid, kind: u8) -> usize
    ensures { (result ≡ (column_of grid.entry.chip.now kind).many) × (result ≤ most_rows) }
{
    if kind == 0 {
        return grid.chip.height.0;
    }
    grid.chip.height.0 / grid.chip.block.0
}

// How high the blocks of such a column are.
fn high_of(grid: Grid, kind: u8) -> Rows
    ensures { result.0 ≡ (column_of grid.entry.chip.now kind).high }
{
    if kind == 0 {
        return Rows(1);
    }
    grid.chip.block
}

// What is held with so many blocks of a kind more.
fn with_blocks(held: Need, kind: Kind, n: usize) -> Need {
    let mut held = held;
    match kind {
        Kind::Clb => held.clbs = held.clbs.wrapping_add(n),
        Kind::Ram => held.rams = held.rams.wrapping_add(n),
        Kind::Multiplier => held.multipliers = held.multipliers.wrapping_add(n),
    }
    held
}
