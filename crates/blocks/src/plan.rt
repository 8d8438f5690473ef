// A floorplan that can be drawn: its design, a row for each module, and its box.
ghost use Rattle.std.specs.Prelude.{◌≡◌, ◌<◌, ◌≤◌};
ghost use Rattle.rules.specs.Design.{most_columns, most_modules, most_rows, need_at};
ghost use Rattle.rules.specs.Check.{from_rows};
ghost use Rattle.rules.proofs.Limits.{NeedLimits};
ghost use Rattle.blocks.specs.Drawable.{Drawable};

use crate::Region;
use crate::columns::Grid;
use rows::rectangle_at;
use rules::{Design, Need, Shape};

// Whoever makes one has had the rows passed by the checker.
#[derive(Clone, Copy)]
pub struct Floorplan<'a> {
    pub design: &'a Design,
    pub rows: &'a [u8],
    pub size: Shape,
    pub ghost drawable: { Drawable design.now rows.now },
    pub ghost wide: { size.w.0 ≤ most_columns },
    pub ghost high: { size.h.0 ≤ most_rows },
}

// A module, its need and its region.
#[derive(Clone, Copy)]
pub struct Module {
    pub number: usize,
    pub need: Need,
    pub region: Region,
    pub ghost needs: { NeedLimits need },
}

impl<'a> Floorplan<'a> {
    // The chip that it stands on.
    pub fn grid(self) -> Grid<'a>
        ensures { result.chip.now ≡ self.entry.design.now.chip }
    {
        Grid {
            chip: &self.design.chip,
        }
    }

    // How many modules it has.
    pub fn modules(self) -> usize
        ensures { (result ≡ self.entry.design.now.modules) × (result ≤ most_modules) }
    {
        self.design.modules
    }

    // The region of module k.
    pub fn region(self, k: usize) -> Region
        requires { k < self.design.now.modules }
        ensures { result.rectangle ≡ from_rows self.entry.rows.now k }
    {
        Region {
            rectangle: rectangle_at(self.rows, k),
        }
    }

    // Module k.
    pub fn module(self, k: usize) -> Module
        requires { k < self.design.now.modules }
        ensures number { result.number ≡ k }
        ensures need { result.need ≡ need_at self.entry.design.now k }
        ensures region { result.region.rectangle ≡ from_rows self.entry.rows.now k }
    {
        Module {
            number: k,
            need: self.design.needs[k],
            region: self.region(k),
        }
    }
}
