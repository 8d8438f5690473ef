// All slots of a cut node by the source's short scan, from its children's lists. At each corner the left shapes are
// taken from the lowest up, under a horizontal cut from the narrowest on. Beside each, the look-up begins at the side
// of the last box kept, since no box that is as wide would be kept, and goes down to narrower right shapes, which are
// higher; under a horizontal cut it begins at the left shape's own width, and the walk goes up to wider ones, which are
// lower. Within one right list boxes narrow by themselves, so they are held against the last box kept before it. The
// work bytes are parted at the slot that is written: its children's slots stand before it.
#![tactic(auto)]

ghost use Rattle.std.specs.Prelude.{◌≡◌, ◌+◌, ◌≤◌, ◌<◌, length, IfSome};
ghost use Rattle.rules.specs.declared.Direction.TheVariants.{Vertical, Horizontal};
ghost use Rattle.slots.specs.Lent.{OnBoard};
ghost use Rattle.cuts.specs.Cut.{NodeCut};
ghost use Rattle.scans.specs.Run.{bytes, UpToLast, stop_at, FirstAfter, LookedUp, FoundKept, Falls};
ghost use Rattle.scans.specs.Run.{WalkedOnIn, BesideKeptIn, WidestKept, WalkedUp, AboveKept};
ghost use Rattle.scans.specs.Scan.{BesideReady, ScannedBeside, AboveReady, ScannedAbove};
ghost use Rattle.scans.specs.Scan.{ScanReady, CornerScanned, Scannable, CornerPaired, RowPaired};

use cuts::Cut;
use rules::{Columns, Corner, Direction, Rows};
use slots::{clear, slot_part, slot_start};

// Higher than any shape: the first left shape has no stop.
// stays: (d) a bound like any other height: walk_on compares with it at each shape, where an Option would be matched first.
const NO_STOP: u8 = 255;

// Of a slot's bytes, how many there are up to the last that holds a shape.
fn up_to_last(slot: &[u8]) -> usize
    ensures { UpToLast (bytes slot.now) (length slot.now) result }
{
    slot.iter().rposition(|&h| h != 0).map_or(0, |k| k + 1)
}

// The first byte of a slot that holds a shape; the end where none does.
fn first(slot: &[u8]) -> usize
    ensures { FirstAfter (bytes slot.now) 0 (length slot.now) result }
{
    slot.iter().position(|&h| h != 0).unwrap_or(slot.len())
}

// The same, the first a bytes left out.
fn first_after(slot: &[u8], a: usize) -> usize
    requires { a ≤ length slot.now }
    ensures { FirstAfter (bytes slot.now) a (length slot.now) result }
{
    a + first(&slot[a..])
}

// What is looked up: the highest shape that is no higher than the left one; and how many bytes there are up to the
// lowest that is higher.
#[derive(Clone, Copy)]
struct Looked {
    found: Option<usize>,
    higher: usize,
}

// Looks up the highest right shape no higher than the left one, from the widest on.
// stays: (c) tried with rposition, then position on the bytes left; left open: LookedUp's `found` of what map gives, and `within`.
fn look_up(right: &[u8], height: u8) -> Looked
    ensures found { LookedUp (bytes right.now) (length right.now) height result }
    ensures within { IfSome result.found (λ k. k < length right.now) }
{
    let mut found = None;
    for k in (0..right.len()).rev() {
        let h = right[k];
        if h != 0 {
            if height < h {
                return Looked {
                    found,
                    higher: k + 1,
                };
            }
            found = Some(k);
        }
    }
    Looked { found, higher: 0 }
}

// Keeps the box of the right shape that was looked up, if there is one: it is as high as the left one.
fn keep_found(slot: &mut [u8], wide: usize, found: Option<usize>, height: u8)
    requires { IfSome found (λ k. wide + k < length slot.old) }
    ensures { FoundKept found height wide slot.old slot.new }
{
    if let Some(k) = found {
        slot[wide + k] = height;
    }
}

// Walks on to higher right shapes and keeps their heights, up to the stop; gives the last that is kept.
// stays: (d) two slices, here and in walk_up, at one index, one of them written; zip with iter_mut (and rev here) is no plainer.
fn walk_on(slot: &mut [u8], wide: usize, right: &[u8], stop: u8) -> Option<usize>
    requires { (wide + length right.now ≤ length slot.old) × (0 < stop) }
    ensures walked { WalkedOnIn right.now stop wide slot.old slot.new result }
    ensures within { IfSome result (λ k. k < length right.now) }
{
    let mut last = None;
    for k in (0..right.len()).rev() {
        let h = right[k];
        if h != 0 {
            if stop <= h {
                return last;
            }
            slot[wide + k] = h;
            last = Some(k);
        }
    }
    last
}

// Keeps the boxes of a left shape so wide and high with right shapes; gives the last that is kept.
fn keep_beside(slot: &mut [u8], wide: usize, height: u8, right: &[u8], stop: u8) -> Option<usize>
    requires within { (wide + length right.now ≤ length slot.old) × (height < stop) }
    requires falls { Falls (bytes right.now) (length right.now) }
    ensures { BesideKeptIn right.now height stop wide slot.old slot.new result }
{
    let looked = look_up(right, height);
    keep_found(slot, wide, looked.found, height);
    walk_on(slot, wide, &right[..looked.higher], stop).or(looked.found)
}

// Scans the right shapes beside a left shape, and gives the width of the last box kept.
fn scan_beside(
    children: &[u8],
    cut: Cut,
    at: Corner,
    slot: &mut [u8],
    wide: usize,
    height: u8,
    stop: u8,
    last: usize,
) -> usize
    requires { BesideReady cut at wide height stop last children.now slot.old }
    ensures { ScannedBeside cut at wide height stop last children.now slot.old slot.new result }
{
    let x = at.x.0 + wide;
    if cut.board.width.0 <= x {
        return last;
    }
    let beside = Corner {
        x: Columns(x),
        y: at.y,
    };
    let right = slot_part(children, cut.board, cut.right, beside, last - 1 - wide);
    match keep_beside(slot, wide, height, right, stop) {
        Some(k) => wide + 1 + k,
        None => last,
    }
}

// A height to add to.
// stays: (d) it says that a height is below 256, here for all who add to one; a cast would say so at each place.
fn as_number(height: u8) -> usize
    ensures { (result ≡ height) × (result < 256) }
{
    height as usize
}

// Walks on to wider right shapes and keeps the boxes lower than `low`; gives the height of the last that is kept.
fn walk_up(slot: &mut [u8], right: &[u8], a: usize, height: usize, low: usize) -> usize
    requires { (a ≤ length right.now) × (length right.now ≤ length slot.old) × (height < 256) × (low < 256) }
    ensures { WalkedUp (bytes right.now) a (length right.now) height low slot.old slot.new result }
{
    let mut last = low;
    for k in a..right.len() {
        let h = as_number(right[k]);
        if h != 0 {
            let high = height + h;
            if high < low {
                slot[k] = high as u8;
                last = high;
            }
        }
    }
    last
}

// Keeps the box of the widest right shape no wider than the left one, of width i + 1, if it is lower than `low`; gives
// the height of the last box that is kept.
fn keep_widest(slot: &mut [u8], right: &[u8], i: usize, height: usize, low: usize) -> usize
    requires { (i < length right.now) × (i < length slot.old) × (height < 256) × (low < 256) }
    ensures { WidestKept (bytes right.now) i height low slot.old slot.new result }
{
    let n = up_to_last(&right[..i + 1]);
    if n == 0 {
        return low;
    }
    let high = height + as_number(right[n - 1]);
    if low <= high {
        return low;
    }
    slot[i] = high as u8;
    high
}

// Keeps the boxes of a left shape of width i + 1 with the right shapes up to the next left one; gives the height of the
// last that is kept, or `low`.
fn keep_above(slot: &mut [u8], right: &[u8], i: usize, height: usize, low: usize) -> usize
    requires within { (i < length right.now) × (length right.now ≤ length slot.old) × (height < 256) × (low < 256) }
    requires falls { Falls (bytes right.now) (length right.now) }
    ensures { AboveKept (bytes right.now) i (length right.now) height low slot.old slot.new result }
{
    let last = keep_widest(slot, right, i, height, low);
    walk_up(slot, right, i + 1, height, last)
}

// Scans the right shapes above a left shape of width i + 1, and gives the height of the last box kept.
fn scan_above(
    children: &[u8],
    cut: Cut,
    at: Corner,
    slot: &mut [u8],
    i: usize,
    next: usize,
    height: usize,
    low: usize,
) -> usize
    requires { AboveReady cut at i next height low children.now slot.old }
    ensures { ScannedAbove cut at i next height low children.now slot.old slot.new result }
{
    let y = at.y.0 + height;
    if cut.board.height.0 <= y {
        return low;
    }
    let above = Corner {
        x: at.x,
        y: Rows(y),
    };
    let right = slot_part(children, cut.board, cut.right, above, next);
    keep_above(slot, right, i, height, low)
}

// The height of a slot's last byte, at which the scan stops and then goes on; higher than any where there is none.
fn stop_at(slot: &[u8]) -> u8
    ensures { result ≡ stop_at (bytes slot.now) (length slot.now) }
{
    match slot {
        [.., last] => *last,
        [] => NO_STOP,
    }
}

// stays: (d) the two scans go over the left shapes in opposite ways, and hold other bounds from one to the next.
// Scans at a corner of a vertical cut, the left shapes from the widest on, which is the lowest.
fn scan_vertical(children: &[u8], cut: Cut, at: Corner, slot: &mut [u8])
    requires { ScanReady cut at children.now slot.old }
    ensures { CornerScanned Vertical cut at children.now slot.new }
{
    let columns = cut.board.width.0 - at.x.0;
    let left = slot_part(children, cut.board, cut.left, at, columns);
    let mut last = columns + 1;
    let mut wide = up_to_last(left);
    let mut height = stop_at(&left[..wide]);
    while 0 < wide {
        let next = up_to_last(&left[..wide - 1]);
        let stop = stop_at(&left[..next]);
        last = scan_beside(children, cut, at, slot, wide, height, stop, last);
        wide = next;
        height = stop;
    }
}

// Scans at a corner of a horizontal cut, the left shapes from the narrowest on.
fn scan_horizontal(children: &[u8], cut: Cut, at: Corner, slot: &mut [u8])
    requires { ScanReady cut at children.now slot.old }
    ensures { CornerScanned Horizontal cut at children.now slot.new }
{
    let columns = cut.board.width.0 - at.x.0;
    let left = slot_part(children, cut.board, cut.left, at, columns);
    let mut low = cut.board.height.0 - at.y.0 + 1;
    let mut i = first_after(left, 0);
    while i < columns {
        let next = first_after(left, i + 1);
        let height = as_number(left[i]);
        low = scan_above(children, cut, at, slot, i, next, height, low);
        i = next;
    }
}

// Writes the slot of a cut node at one corner.
fn scan_corner(work: &mut [u8], cut: Cut, at: Corner)
    requires { Scannable cut work.old × OnBoard cut.board at }
    ensures { CornerPaired cut at work.old work.new }
{
    let to = slot_start(cut.board, cut.t, at);
    let width = cut.board.width;
    clear(work, to, width);
    let (children, rest) = work.split_at_mut(to);
    let slot = &mut rest[..width.0];
    match cut.direction {
        Direction::Vertical => scan_vertical(children, cut, at, slot),
        Direction::Horizontal => scan_horizontal(children, cut, at, slot),
    }
}

// Writes the slots of a cut node at the corners of one row.
// stays: (d) a row of corners for both directions, where cuts goes along a cut's lines, whose right slots it fills once.
fn scan_row(work: &mut [u8], cut: Cut, y: Rows)
    requires { Scannable cut work.old × (y.0 < cut.board.listed.0) }
    ensures { RowPaired cut y.0 work.old work.new }
{
    // stays: (d) the ranges, here and below, name columns and rows, and index no slice.
    for x in 0..cut.board.width.0 {
        scan_corner(work, cut, Corner { x: Columns(x), y });
    }
}

// Writes all slots of a cut node: the same as cuts::cut_node, where its children's slots are lists of rooms that grow.
pub fn scan_node(work: &mut [u8], cut: Cut)
    requires { Scannable cut work.old }
    ensures { NodeCut cut work.old work.new }
{
    for y in 0..cut.board.listed.0 {
        scan_row(work, cut, Rows(y));
    }
}
