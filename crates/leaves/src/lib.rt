// A leaf's lists, from its need: at each corner by the walk along the stair.
#![tactic(auto)]

mod room;

ghost use Rattle.std.specs.Prelude.{◌≡◌, suc, ◌<◌};
ghost use Rattle.std.proofs.Math.Bool.{So};
ghost use Rattle.rules.specs.Design.{lawful_chip};
ghost use Rattle.leaves.specs.Room.{full_at};
ghost use Rattle.leaves.specs.Step.{Steppable, Stepped};
ghost use Rattle.leaves.specs.Leaf.{leaf_bytes, WalkReady, SlotReady, LeafReady, WalkListed, RowListed, NodeListed};
ghost use Rattle.slots.specs.Lent.{Lent, SlotOn};

use holding::is_at_most;
use room::Room;
use rules::{Chip, Columns, Corner, Need, Rows};
use slots::{Board, slot_start};

// A leaf, as it is listed: on a board of its chip's size, by what its module needs, in the slots of node t.
#[derive(Clone, Copy)]
struct Leaf {
    board: Board,
    chip: Chip,
    need: Need,
    t: usize,
    ghost lawful: { So (lawful_chip chip) },
    ghost width: { board.width ≡ chip.width },
    ghost height: { board.height ≡ chip.height },
}

impl Leaf {
    // Steps down while the room still suits, and keeps the last height that suited. None is left once the rows are used up.
    fn step_down(&self, height: &mut u8, from: Room) -> Option<Room>
        requires { Steppable self.now.chip.block.0 from }
        ensures { Stepped self.now.need self.now.chip.block.0 from height.old height.new result }
    {
        let mut room = from;
        while is_at_most(self.need, room.held) {
            *height = room.rows.0 as u8;
            room = room.lower(self.chip.block);
            if room.rows.0 == 0 {
                return None;
            }
        }
        Some(room)
    }

    // The walk along the stair, in a slot that is cleared: from one column at full height it steps down while the room
    // still suits, and otherwise adds a column, until columns or rows are used up.
    fn walk(&self, slot: &mut [u8], at: Corner, full: Room)
        requires { WalkReady self.now.chip at slot.old × (full ≡ full_at self.now.chip at.y.0) }
        ensures { WalkListed self.now.chip self.now.need at slot.old slot.new }
    {
        let mut room = full;
        let kinds = &self.chip.kinds[..];
        for (j, kind) in kinds[at.x.0..self.chip.width.0].iter().enumerate() {
            let Some(left) = self.step_down(&mut slot[j], room.wider(*kind)) else {
                return;
            };
            room = left;
        }
    }

    // Lists the shapes at a corner, in the node's slot there.
    fn list_slot(&self, work: &mut [u8], at: Corner, full: Room)
        requires { SlotReady self.now.board self.now.t at work.old × (full ≡ full_at self.now.chip at.y.0) }
        ensures { SlotOn self.now.board self.now.t at (leaf_bytes self.now.chip self.now.need at) work.old work.new }
    {
        let start = slot_start(self.board, self.t, at);
        let slot = &mut work[start..start + self.board.width.0];
        slot.fill(0);
        self.walk(slot, at, full);
    }

    // Lists the corners in one row. All rows above it are a room that its corners share: it is worked out once.
    fn list_row(&self, work: &mut [u8], y: Rows)
        requires { Lent self.now.board (suc self.now.t) work.old × (y.0 < self.now.board.listed.0) }
        ensures { RowListed self.now.board self.now.chip self.now.need self.now.t y.0 work.old work.new }
    {
        let full = Room::no_columns(&self.chip, y);
        for x in 0..self.board.width.0 {
            self.list_slot(work, Corner { x: Columns(x), y }, full);
        }
    }
}

// Lists all corners of a leaf.
// stays: (d) the ranges, here and in a row, name rows and columns, and index no slice.
pub fn leaf_node(work: &mut [u8], board: Board, chip: Chip, need: Need, t: usize)
    requires { LeafReady board chip t work.old }
    ensures { NodeListed board chip need t work.old work.new }
{
    let leaf = Leaf {
        board,
        chip,
        need,
        t,
    };
    for y in 0..board.listed.0 {
        leaf.list_row(work, Rows(y));
    }
}
