// Amounts and places in words.
ghost use Rattle.std.specs.Prelude.{◌≡◌, ◌+◌, ◌-◌, ◌*◌, ◌≤◌, ◌<◌};

use blocks::{Grid, Kind, Module, Region, Span};
use rules::Need;
use std::fmt;
use std::fmt::{Display, Write};

// How many there are of a thing: `1 RAM`, `2 RAMs`.
#[derive(Clone, Copy)]
pub struct Amount<T>(pub usize, pub T);

impl<T: Display> Display for Amount<T> {
    fn fmt<W: Write>(&self, f: &mut fmt::Formatter<W>) -> fmt::Result {
        write!(f, "{} {}", self.0, self.1)?;
        if self.0 == 1 { Ok(()) } else { write!(f, "s") }
    }
}

// How many there are of each kind.
#[derive(Clone, Copy)]
pub struct Amounts(pub Need);

impl Display for Amounts {
    fn fmt<W: Write>(&self, f: &mut fmt::Formatter<W>) -> fmt::Result {
        let clbs = Amount(self.0.clbs, Kind::Clb);
        let rams = Amount(self.0.rams, Kind::Ram);
        let multipliers = Amount(self.0.multipliers, Kind::Multiplier);
        write!(f, "{clbs}, {rams}, {multipliers}")
    }
}

// The columns, or rows, from one to before another: `column 4`, `columns 4 to 6`.
#[derive(Clone, Copy)]
pub struct Among {
    thing: &'static str,
    from: usize,
    end: usize,
}

impl Display for Among {
    fn fmt<W: Write>(&self, f: &mut fmt::Formatter<W>) -> fmt::Result {
        let (thing, from) = (self.thing, self.from);
        let last = self.end.saturating_sub(1);
        if last <= from {
            return write!(f, "{thing} {from}");
        }
        write!(f, "{thing}s {from} to {last}")
    }
}

// The rows of a span.
pub fn rows_of(span: Span) -> Among {
    Among {
        thing: "row",
        from: span.low.0,
        end: span.far.0,
    }
}

// A region's columns and rows.
#[derive(Clone, Copy)]
pub struct Place(pub Region);

impl Display for Place {
    fn fmt<W: Write>(&self, f: &mut fmt::Formatter<W>) -> fmt::Result {
        let columns = Among {
            thing: "column",
            from: self.0.left().0,
            end: self.0.right().0,
        };
        let rows = rows_of(self.0.rows());
        write!(f, "{columns}, {rows}")
    }
}

// A product of two numbers that are small enough.
fn product(a: usize, b: usize) -> usize
    requires { (a < 256) × (b < 262144) }
    ensures { (result ≡ a * b) × (result ≤ 67108864) }
{
    a * b
}

// How many cells a region has.
pub fn cells_of(r: Region) -> usize
    ensures { result ≡ r.rectangle.shape.w.0 * r.rectangle.shape.h.0 }
{
    product(r.rectangle.shape.w.0, r.rectangle.shape.h.0)
}

// How many of its cells nothing needs: a CLB takes one, and a block as many as it is high.
pub fn idle_cells(grid: Grid, module: Module) -> usize
    ensures { let n = module.need in let s = module.region.rectangle.shape in
        result ≡ s.w.0 * s.h.0 - (n.clbs + grid.entry.chip.now.block.0 * (n.rams + n.multipliers)) }
{
    let need = module.need;
    let taken = need.clbs + product(grid.chip.block.0, need.rams + need.multipliers);
    cells_of(module.region).saturating_sub(taken)
}
