// What the walk carries: the room that it has come to, and what that room holds. A column more adds what the column
// holds in the room's rows; a row less takes away what ended with that row.
ghost use Rattle.std.specs.Prelude.{◌≡◌, ◌≤◌, ◌<◌};
ghost use Rattle.rules.specs.Design.{last_kind};
ghost use Rattle.leaves.specs.Room.{as_rows, edge_above, no_columns, wider, lower, Standing, Widens, Lowers};

use holding::{blocks_between, with_column};
use rules::{Chip, Need, Rows};

// A room at a corner. Of a column of blocks so many stand whole in its rows, and the last of these ends at the edge,
// counted in rows from the corner; without any the edge is 0. `row` is what one row can take away: a CLB for each CLB
// column, and a block for each block column.
#[derive(Clone, Copy)]
pub struct Room {
    pub rows: Rows,
    blocks: usize,
    edge: Rows,
    row: Need,
    pub held: Need,
}

// The rows from a low one up to where the last of so many blocks ends; 0 without any block.
fn edge_above(low: Rows, end: Rows, blocks: usize) -> Rows
    requires { 0 < blocks → low.0 ≤ end.0 }
    ensures { result ≡ as_rows (edge_above low.0 end.0 blocks) }
{
    if blocks == 0 {
        return Rows(0);
    }
    Rows(end.0 - low.0)
}

impl Room {
    // All rows above a corner's row, and no column yet.
    #[tactic(auto, unfolding(crate::specs::Room::no_columns))]
    pub fn no_columns(chip: &Chip, y: Rows) -> Self
        requires { Standing chip.now y.0 }
        ensures { result ≡ no_columns chip.now.height.0 chip.now.block.0 y.0 }
    {
        let blocks = blocks_between(chip.block, y, chip.height);
        let end = Rows(chip.height.0 / chip.block.0 * chip.block.0);
        let none = Need {
            clbs: 0,
            rams: 0,
            multipliers: 0,
        };
        Room {
            rows: Rows(chip.height.0 - y.0),
            blocks,
            edge: edge_above(y, end, blocks),
            row: none,
            held: none,
        }
    }

    // The room with one column more.
    #[tactic(auto, unfolding(crate::specs::Room::wider))]
    // stays: (a) kinds are numbers in a chip, where the value test speaks of 3 and more.
    pub fn wider(self, kind: u8) -> Self
        requires { (kind ≤ last_kind) × Widens self }
        ensures { result ≡ wider self kind }
    {
        let one = Need {
            clbs: 1,
            rams: 1,
            multipliers: 1,
        };
        let column = Need {
            clbs: self.rows.0,
            rams: self.blocks,
            multipliers: self.blocks,
        };
        Room {
            row: with_column(self.row, kind, one),
            held: with_column(self.held, kind, column),
            ..self
        }
    }

    // The room with one row less, of blocks so high.
    #[tactic(auto, unfolding(crate::specs::Room::lower))]
    pub fn lower(self, block: Rows) -> Self
        requires { Lowers block.0 self }
        ensures { result ≡ lower block.0 self }
    {
        let rows = Rows(self.rows.0 - 1);
        let held = Need {
            clbs: self.held.clbs - self.row.clbs,
            ..self.held
        };
        if self.rows.0 != self.edge.0 {
            return Room { rows, held, ..self };
        }
        let blocks = self.blocks - 1;
        Room {
            rows,
            blocks,
            edge: edge_above(block, self.edge, blocks),
            held: Need {
                rams: self.held.rams - self.row.rams,
                multipliers: self.held.multipliers - self.row.multipliers,
                ..held
            },
            ..self
        }
    }
}
