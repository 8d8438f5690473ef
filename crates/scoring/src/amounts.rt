// What each kind of term counts in a floorplan in rows: area, ratio and wire.
ghost use Rattle.std.specs.Prelude.{◌≡◌, ◌+◌, ◌-◌, ◌*◌, ◌≤◌, ◌<◌, length};
ghost use Rattle.std.proofs.Math.Bool.{So};
ghost use Rattle.rules.specs.Design.{most_modules, LawfulDesign};
ghost use Rattle.rules.specs.Check.{from_rows};
ghost use Rattle.rules.specs.Score.{exact, area_of, ratio_more, ratio_of, half_perimeter, wire_of, lawful_net, lawful_nets, most_nets};
ghost use Rattle.rows.specs.Row.{Bytes};
ghost use Rattle.extents.specs.Sides.{extent_of};
ghost use Rattle.scoring.specs.Amounts.{Near, most_centre, point_of, modules_to, members_to, Countable, amounts_of};

use extents::{Extent, extent_of, together};
use rows::rectangle_at;
use rules::{Columns, Corner, Cost, Design, Net, Rectangle, Rows, Shape};

// What each kind of term counts, without its weight.
#[derive(Clone, Copy)]
pub struct Amounts {
    pub area: f64,
    pub ratio: f64,
    pub wire: f64,
}

// A whole number as an f64, which has it exactly.
fn exact_of(n: usize) -> f64
    requires { n < 4294967296 }
    ensures { result ≡ exact n }
{
    let n = n as u32;
    n as f64
}

// The extent of a module's rectangle.
fn module_extent(rows: &[u8], k: usize) -> Extent
    requires { 4 * k + 4 ≤ length rows.now }
    ensures { (result ≡ extent_of (from_rows rows.now k)) × Near result }
{
    extent_of(rectangle_at(rows, k))
}

// The extent of all modules' rectangles.
fn modules_extent(rows: &[u8], modules: usize) -> Extent
    requires { (1 ≤ modules) × (modules ≤ most_modules) × (4 * modules ≤ length rows.now) }
    ensures { (result ≡ modules_to (modules - 1) (from_rows rows.now)) × Near result }
{
    let mut extent = module_extent(rows, 0);
    // stays: (d) the ranges, here and below, name modules, whose rows are read.
    for k in 1..modules {
        extent = together(extent, module_extent(rows, k));
    }
    extent
}

// The area of the box from the chip's lower left corner.
fn area_of(design: Design, rows: &[u8]) -> usize
    requires { LawfulDesign design × (4 * design.modules ≤ length rows.now) }
    ensures { (result ≡ area_of design (from_rows rows.now)) × (result ≤ most_centre * most_centre) }
{
    let extent = modules_extent(rows, design.modules);
    extent.far.x.0 * extent.far.y.0
}

// A sum of ratios, with the two of one shape more.
fn ratio_more(sum: f64, shape: Shape) -> f64
    requires { (shape.w.0 < 256) × (shape.h.0 < 256) }
    ensures { result ≡ ratio_more sum (exact shape.w.0) (exact shape.h.0) }
{
    let w = exact_of(shape.w.0);
    let h = exact_of(shape.h.0);
    sum + w / h + h / w
}

// The sum of all modules' ratios, in module order.
fn ratio_of(rows: &[u8], modules: usize) -> f64
    requires { (modules ≤ most_modules) × (4 * modules ≤ length rows.now) }
    ensures { result ≡ ratio_of modules (from_rows rows.now) }
{
    let mut sum = 0.0;
    for k in 0..modules {
        let rectangle = rectangle_at(rows, k);
        sum = ratio_more(sum, rectangle.shape);
    }
    sum
}

// A rectangle's doubled centre, as an extent.
fn point_of(r: Rectangle) -> Extent
    requires { Bytes r }
    ensures { (result ≡ point_of r) × Near result }
{
    let centre = Corner {
        x: Columns(2 * r.corner.x.0 + r.shape.w.0),
        y: Rows(2 * r.corner.y.0 + r.shape.h.0),
    };
    Extent {
        low: centre,
        far: centre,
    }
}

// The doubled centre of a module's rectangle.
fn module_point(rows: &[u8], k: usize) -> Extent
    requires { 4 * k + 4 ≤ length rows.now }
    ensures { (result ≡ point_of (from_rows rows.now k)) × Near result }
{
    point_of(rectangle_at(rows, k))
}

// The extent of the doubled centres of a net's members.
fn members_extent(rows: &[u8], modules: usize, net: Net) -> Extent
    requires { So (lawful_net modules net) × (4 * modules ≤ length rows.now) }
    ensures { (result ≡ members_to (net.count - 1) (from_rows rows.now) net) × Near result }
{
    let mut extent = module_point(rows, net.modules[0] as usize);
    for member in &net.modules[1..net.count] {
        extent = together(extent, module_point(rows, *member as usize));
    }
    extent
}

// The half perimeter of the box round them.
fn half_perimeter(rows: &[u8], modules: usize, net: Net) -> usize
    requires { So (lawful_net modules net) × (4 * modules ≤ length rows.now) }
    ensures { (result ≡ half_perimeter (from_rows rows.now) net) × (result ≤ 2 * most_centre) }
{
    let extent = members_extent(rows, modules, net);
    let across = extent.far.x.0 - extent.low.x.0;
    let up = extent.far.y.0 - extent.low.y.0;
    across + up
}

// The sum over all nets.
fn wire_of(rows: &[u8], modules: usize, cost: Cost) -> usize
    requires { So (lawful_nets modules cost.nets cost.net_count) × (4 * modules ≤ length rows.now) }
    ensures { (result ≡ wire_of (from_rows rows.now) cost.nets cost.net_count) × (result ≤ most_nets * (2 * most_centre)) }
{
    let mut sum = 0;
    for net in &cost.nets[..cost.net_count] {
        sum += half_perimeter(rows, modules, *net);
    }
    sum
}

// All three.
pub fn amounts_of(design: Design, rows: &[u8], cost: Cost) -> Amounts
    requires { Countable design rows.now cost.nets cost.net_count }
    ensures { result ≡ amounts_of design (from_rows rows.now) cost.nets cost.net_count }
{
    Amounts {
        area: exact_of(area_of(design, rows)),
        ratio: ratio_of(rows, design.modules),
        wire: exact_of(wire_of(rows, design.modules, cost)),
    }
}
