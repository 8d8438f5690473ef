// A module's row: the four bytes x, y, w, h that its rectangle is stored in.
#![tactic(auto)]

ghost use Rattle.std.specs.Prelude.{◌≡◌, ◌+◌, ◌*◌, ◌≤◌, ◌<◌, length};
ghost use Rattle.std.proofs.lemmas.List.Edits.{sets};
ghost use Rattle.rules.specs.Choice.{row_of};
ghost use Rattle.rules.specs.Check.{from_rows};
ghost use Rattle.rows.specs.Row.{Bytes};

use rules::{Columns, Corner, Rectangle, Rows, Shape};

// The rectangle of module k, from its row.
pub fn rectangle_at(rows: &[u8], k: usize) -> Rectangle
    requires { 4 * k + 4 ≤ length rows.now }
    ensures { (result ≡ from_rows rows.now k) × Bytes result }
{
    let row = &rows[4 * k..4 * k + 4];
    let corner = Corner {
        x: Columns(row[0] as usize),
        y: Rows(row[1] as usize),
    };
    let shape = Shape {
        w: Columns(row[2] as usize),
        h: Rows(row[3] as usize),
    };
    Rectangle { corner, shape }
}

// Stores the rectangle of module k in its row.
pub fn row_out(rows: &mut [u8], k: usize, r: Rectangle)
    requires { (4 * k + 4 ≤ length rows.old) × Bytes r }
    ensures { rows.new ≡ sets rows.old (4 * k) (row_of r) }
{
    let row = [
        r.corner.x.0 as u8,
        r.corner.y.0 as u8,
        r.shape.w.0 as u8,
        r.shape.h.0 as u8,
    ];
    rows[4 * k..4 * k + 4].copy_from_slice(&row);
}
