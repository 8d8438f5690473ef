// The extent of things on the chip: the least left and bottom, the greatest right and top.
#![tactic(auto)]

ghost use Rattle.std.specs.Prelude.{◌≡◌, min, max};
ghost use Rattle.rows.specs.Row.{Bytes};
ghost use Rattle.extents.specs.Sides.{extent_of, together};

use rules::{Columns, Corner, Rectangle, Rows};

// The sides of what lies somewhere: the least left and bottom, the greatest right and top.
#[derive(Clone, Copy)]
pub struct Extent {
    pub low: Corner,
    pub far: Corner,
}

// The extent of a module's rectangle.
// stays: (a) no From, which may ask for nothing: the sums fit by Bytes.
pub fn extent_of(r: Rectangle) -> Extent
    requires { Bytes r }
    ensures { result ≡ extent_of r }
{
    let low = r.corner;
    let far = Corner {
        x: Columns(r.corner.x.0 + r.shape.w.0),
        y: Rows(r.corner.y.0 + r.shape.h.0),
    };
    Extent { low, far }
}

// The extent of two things together.
pub fn together(l: Extent, r: Extent) -> Extent
    ensures { result ≡ together l r }
{
    let low = Corner {
        x: Columns(l.low.x.0.min(r.low.x.0)),
        y: Rows(l.low.y.0.min(r.low.y.0)),
    };
    let far = Corner {
        x: Columns(l.far.x.0.max(r.far.x.0)),
        y: Rows(l.far.y.0.max(r.far.y.0)),
    };
    Extent { low, far }
}
