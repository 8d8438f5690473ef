// Slots in the work bytes: where they start, how one is cleared, and how writing one leaves all others.
#![tactic(auto)]

ghost use Rattle.std.specs.Prelude.{◌≡◌, suc, ◌+◌, ◌≤◌, length};
ghost use Rattle.slots.specs.Size.{board_of};
ghost use Rattle.slots.specs.Written.{none, Filled};
ghost use Rattle.slots.specs.Lent.{OnBoard, Addressed, Lent, SlotPart, start_on, most_work};

use rules::{Columns, Corner, Design, Rows};

// The chip's size, and how many of its rows are listed and so have slots.
#[derive(Clone, Copy)]
pub struct Board {
    pub width: Columns,
    pub height: Rows,
    pub listed: Rows,
}

// The size of a design's chip, all rows of which have slots.
pub fn board_of(design: Design) -> Board
    ensures { result ≡ board_of design }
{
    let width = design.chip.width;
    let height = design.chip.height;
    Board {
        width,
        height,
        listed: height,
    }
}

// Where the slot of node t at a corner starts.
pub fn slot_start(board: Board, t: usize, at: Corner) -> usize
    requires { Addressed board t at }
    ensures { (result ≡ start_on board t at) × (result + board.width.0 ≤ most_work) }
{
    let width = board.width.0;
    ((t * board.listed.0 + at.y.0) * width + at.x.0) * width
}

// The first n bytes of the slot of node t at a corner.
pub fn slot_part(work: &[u8], board: Board, t: usize, at: Corner, n: usize) -> &[u8]
    requires { Lent board (suc t) work.now × OnBoard board at × (n ≤ board.width.0) }
    ensures { SlotPart board t at n work.now result.now }
{
    let from = slot_start(board, t, at);
    &work[from..from + n]
}

// Clears the bytes of a slot.
// stays: (a) scans lends all work bytes here, and the clause says that those outside the slot stay.
pub fn clear(work: &mut [u8], start: usize, width: Columns)
    requires { (start + width.0 ≤ length work.old) × (start + width.0 ≤ most_work) }
    ensures { Filled work.old start width.0 none work.new }
{
    work[start..start + width.0].fill(0);
}
