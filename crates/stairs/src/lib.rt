// The stair test that place and edit run over every slot in the work bytes.
#![tactic(auto)]

ghost use Rattle.std.specs.Prelude.{◌≡◌, true, suc, ◌+◌, ◌≤◌, ◌<◌, length};
ghost use Rattle.std.proofs.Math.Bool.{So};
ghost use Rattle.rules.specs.Search.{all};
ghost use Rattle.rules.specs.Design.{most_rows};
ghost use Rattle.rules.proofs.Test.{is_stair};
ghost use Rattle.slots.specs.Lent.{OnBoard, slots_on, Lent};
ghost use Rattle.stairs.specs.Walk.{byte_at, zero_at, low_left, low_after, row_stairs, node_stairs, stairs_on};

use rules::{Columns, Corner, Rows};
use slots::Board;

// All of these bytes are zero. No byte ends the fold early, as one would end `all`.
fn all_zero(bytes: &[u8]) -> bool
    ensures { result ≡ all (length bytes.now) (zero_at bytes.now) }
{
    bytes.iter().fold(true, |zero, &byte| zero & (byte == 0))
}

// Eight bytes, and all of them zero. Their number is written out, so that no loop is left when this is compiled.
fn eight_zero(part: &[u8]) -> bool
    ensures { result ≡ true → So (all (length part.now) (zero_at part.now)) }
{
    part.len() == 8 && all_zero(&part[..8])
}

// The height that the next nonzero byte has to stay below, after these bytes of a slot, so many columns of which are still on the chip; none if
// they are no stair.
fn walk(bytes: &[u8], columns: usize, first: u8) -> Option<u8>
    requires { 0 < first }
    ensures { result ≡ low_left (low_after columns (byte_at bytes.now) 0 (length bytes.now) first) }
{
    let mut low = first;
    for (j, byte) in bytes.iter().enumerate() {
        if *byte != 0 {
            if columns <= j {
                return None;
            }
            if low <= *byte {
                return None;
            }
            low = *byte;
        }
    }
    Some(low)
}

// The slot is a stair for this corner. Most bytes of a slot are zero: they are passed eight at a time.
fn is_stair(slot: &[u8], board: Board, at: Corner) -> bool
    requires { (length slot.now ≡ board.width.0) × OnBoard board at × (board.height.0 ≤ most_rows) }
    ensures { result ≡ is_stair board.width.0 board.height.0 at (byte_at slot.now) }
{
    let mut columns = board.width.0 - at.x.0;
    let mut low = (board.height.0 - at.y.0 + 1) as u8;
    for part in slot.chunks(8) {
        if !eight_zero(part) {
            let Some(next) = walk(part, columns, low) else {
                return false;
            };
            low = next;
        }
        columns = columns.saturating_sub(part.len());
    }
    true
}

// The slots of node t in row y are stairs.
// stays: (d) the ranges, here and below, name columns, rows and nodes; an `all` would say their bounds again in its closure.
fn row_stairs(work: &[u8], board: Board, t: usize, y: Rows) -> bool
    requires { Lent board (suc t) work.now × (y.0 < board.listed.0) }
    ensures { result ≡ row_stairs board (slots_on board work.now t) y.0 }
{
    let width = board.width.0;
    for x in 0..width {
        let at = Corner { x: Columns(x), y };
        let start = slots::slot_start(board, t, at);
        if !is_stair(&work[start..start + width], board, at) {
            return false;
        }
    }
    true
}

// All slots of node t are stairs.
fn node_stairs(work: &[u8], board: Board, t: usize) -> bool
    requires { Lent board (suc t) work.now }
    ensures { result ≡ node_stairs board (slots_on board work.now) t }
{
    let rows = board.listed.0;
    for y in 0..rows {
        if !row_stairs(work, board, t, Rows(y)) {
            return false;
        }
    }
    true
}

// All slots of the first nodes are stairs. A function of its own for both who ask: inlined into place its loops are compiled to what takes
// nearly half as long again.
#[inline(never)]
pub fn all_stairs(work: &[u8], board: Board, nodes: usize) -> bool
    requires { Lent board nodes work.now }
    ensures { result ≡ stairs_on board nodes (slots_on board work.now) }
{
    for t in 0..nodes {
        if !node_stairs(work, board, t) {
            return false;
        }
    }
    true
}
