// All slots of a cut node, from its children's stored shapes. The corners go line by line, a row of them under a
// vertical cut and a column under a horizontal one, so that the right child's corner beside a left shape is on the same
// line. Of each line the right child's slots are filled once; each corner then lays filled slots over the least top
// sides of its boxes.
#![tactic(auto)]

ghost use Rattle.std.specs.Prelude.{◌≡◌, suc, ◌+◌, ◌≤◌, ◌<◌, length};
ghost use Rattle.rules.proofs.Test.{across};
ghost use Rattle.slots.specs.Lent.{OnBoard, Lent};
ghost use Rattle.cuts.specs.Cut.{chunk, filled_size, line_size, tops_size};
ghost use Rattle.cuts.specs.Cut.{Cuttable, Fillable, CornerReady, Pairable, Layable, Keepable};
ghost use Rattle.cuts.specs.Cut.{corner_at, place_of, lines, places, lowered, kept_byte};
ghost use Rattle.cuts.specs.Cut.{SlotFilled, CornerFilled, WholeLine, RunLaid, SlotLaid, BoxLaid, CornerLaid};
ghost use Rattle.cuts.specs.Cut.{TailsNone, NoTops, SlotKept, CornerCut, LineCut, NodeCut};

use rules::{Columns, Corner, Direction, MOST_COLUMNS, MOST_ROWS, Rows};
use slots::{Board, slot_part, slot_start};

// A place along a line of corners, or how many places it has: columns under a vertical cut, rows under a horizontal
// one.
#[derive(Clone, Copy)]
struct Place(usize);

// A line of corners, or how many lines there are: rows under a vertical cut, columns under a horizontal one.
#[derive(Clone, Copy)]
struct Line(usize);

// The most places that a line can have, in either direction.
// stays: (d) a constant's value calls no function, so `max` can't stand here.
const MOST_PLACES: usize = if MOST_COLUMNS < MOST_ROWS {
    MOST_ROWS
} else {
    MOST_COLUMNS
};

// How many top sides are laid at a time.
const CHUNK: usize = 16;

// A filled slot: a byte for each right side from 0 on, and what a last chunk runs over.
const FILLED_SIZE: usize = MOST_COLUMNS + CHUNK;

// The filled slots of a line of corners.
const LINE_SIZE: usize = MOST_PLACES * FILLED_SIZE;

// A top side for each right side, also where a slot's width runs past the chip, and what a last chunk runs over.
const TOPS_SIZE: usize = 2 * MOST_COLUMNS + CHUNK;

// The lower of a byte and a height, where 0 is no height.
fn lowered_by(low: u8, height: u8) -> u8
    ensures { result ≡ lowered low height }
{
    if height == 0 { low } else { low.min(height) }
}

// A cut node: the chip, the way it cuts, and which nodes it and its children are.
#[derive(Clone, Copy)]
pub struct Cut {
    pub board: Board,
    pub direction: Direction,
    pub t: usize,
    pub left: usize,
    pub right: usize,
}

// stays: (a) each is a match on the direction; one function over two numbers would let rows stand for columns (01).
impl Cut {
    // How many places a line has.
    fn places(self) -> Place
        ensures { result.0 ≡ places self.direction self.board }
    {
        match self.direction {
            Direction::Vertical => Place(self.board.width.0),
            Direction::Horizontal => Place(self.board.height.0),
        }
    }

    // How many lines there are.
    fn lines(self) -> Line
        ensures { result.0 ≡ lines self.direction self.board }
    {
        match self.direction {
            Direction::Vertical => Line(self.board.height.0),
            Direction::Horizontal => Line(self.board.width.0),
        }
    }

    // The place of a corner on its line.
    fn place_of(self, at: Corner) -> Place
        ensures { result.0 ≡ place_of self.direction at }
    {
        match self.direction {
            Direction::Vertical => Place(at.x.0),
            Direction::Horizontal => Place(at.y.0),
        }
    }

    // The corner at a place on a line.
    fn corner_at(self, on: Line, place: Place) -> Corner
        ensures { result ≡ corner_at self.direction on.0 place.0 }
    {
        match self.direction {
            Direction::Vertical => Corner {
                x: Columns(place.0),
                y: Rows(on.0),
            },
            Direction::Horizontal => Corner {
                x: Columns(on.0),
                y: Rows(place.0),
            },
        }
    }

    // The first right side of a box: `beside` where the right shape stands beside the left one, `above` where it is
    // above.
    fn first_right(self, beside: Columns, above: Columns) -> Columns
        ensures { result.0 ≡ across self.direction beside.0 above.0 }
    {
        match self.direction {
            Direction::Vertical => beside,
            Direction::Horizontal => above,
        }
    }
}

// Fills a slot at row y into a place's top sides, one for each of its bytes.
// stays: (c) tried with zip and iter_mut; left open: SlotFilled of the bytes written, of which the loop's invariant has no value.
fn fill_slot(slot: &[u8], y: u8, height: u8, tops: &mut [u8])
    requires { (length tops.old ≡ length slot.now) × (y ≤ height) × (height < 255) }
    ensures { SlotFilled height y slot.now tops.new }
{
    let mut low = height - y + 1;
    for (j, &h) in slot.iter().enumerate() {
        low = lowered_by(low, h);
        tops[j] = y + low;
    }
}

// Fills the slot of a node at a corner, whose right sides start behind `to`.
fn fill_corner(
    work: &[u8],
    board: Board,
    t: usize,
    at: Corner,
    line: &mut [u8; LINE_SIZE],
    to: usize,
)
    requires { Lent board (suc t) work.now × OnBoard board at × (to + filled_size ≤ line_size) }
    ensures { CornerFilled board work.now t at to line.old line.new }
{
    let first = to + at.x.0 + 1;
    let columns = board.width.0 - at.x.0;
    let slot = slot_part(work, board, t, at, columns);
    let tops = &mut line[first..first + columns];
    fill_slot(slot, at.y.0 as u8, board.height.0 as u8, tops);
}

// Fills the right child's slots at all corners of a line.
fn fill_line(work: &[u8], cut: Cut, on: Line, line: &mut [u8; LINE_SIZE])
    requires { Lent cut.board (suc cut.right) work.now × Fillable cut.direction cut.board on.0 line.old }
    ensures { WholeLine cut.direction cut.board work.now cut.right on.0 line.new }
{
    let places = cut.places();
    // stays: (d) the ranges, here and below, name places and lines, and index no slice.
    for p in 0..places.0 {
        let at = cut.corner_at(on, Place(p));
        fill_corner(work, cut.board, cut.right, at, line, p * FILLED_SIZE);
    }
}

// Lays a chunk of a filled slot, none of it lower than `top`, over the top sides.
// stays: (c) tried with zip and iter_mut; left open: RunLaid of the bytes written, of which the loop's invariant has no value.
fn lay_chunk(line: &[u8; LINE_SIZE], from: usize, top: u8, tops: &mut [u8; TOPS_SIZE], to: usize)
    requires { (from + chunk ≤ line_size) × (to + chunk ≤ tops_size) }
    ensures { RunLaid line.now from top tops.old to chunk tops.new }
{
    for k in 0..CHUNK {
        let box_top = top.max(line[from + k]);
        tops[to + k] = tops[to + k].min(box_top);
    }
}

// Lays n bytes of a filled slot, none lower than `top`, over the top sides, chunk by chunk.
// stays: (d) the last chunk runs past the n bytes in both arrays, where `chunks` of them would end with a part of one.
fn lay_slot(
    line: &[u8; LINE_SIZE],
    from: usize,
    top: u8,
    tops: &mut [u8; TOPS_SIZE],
    to: usize,
    n: usize,
)
    requires { Layable from to n tops.old }
    ensures { SlotLaid line.now from top tops.old to n tops.new }
{
    for k in (0..n).step_by(CHUNK) {
        lay_chunk(line, from + k, top, tops, to + k);
    }
}

// Pairs the left shape of width i + 1 with all right shapes beside it.
fn pair_shape(
    cut: Cut,
    at: Corner,
    i: usize,
    height: u8,
    line: &[u8; LINE_SIZE],
    tops: &mut [u8; TOPS_SIZE],
)
    requires { Pairable cut.board at line.now tops.old × (at.x.0 + i < cut.board.width.0) }
    ensures { BoxLaid cut.direction cut.board line.now at i height tops.old tops.new }
{
    let h = height as usize;
    if h == 0 {
        return;
    }
    let far = Corner {
        x: Columns(at.x.0 + i + 1),
        y: Rows(at.y.0 + h),
    };
    if cut.board.height.0 < far.y.0 {
        return;
    }
    let place = cut.place_of(far);
    if cut.places().0 <= place.0 {
        return;
    }
    let first = cut.first_right(Columns(far.x.0 + 1), far.x);
    lay_slot(
        line,
        place.0 * FILLED_SIZE + first.0,
        far.y.0 as u8,
        tops,
        first.0,
        cut.board.width.0 + 1 - first.0,
    );
}

// Pairs all shapes of the left child's slot at a corner.
fn pair_corner(
    work: &[u8],
    cut: Cut,
    at: Corner,
    line: &[u8; LINE_SIZE],
    tops: &mut [u8; TOPS_SIZE],
)
    requires { CornerReady cut.board cut.left at work.now line.now × NoTops cut.board at tops.old }
    ensures { CornerLaid cut.direction cut.board line.now work.now cut.left at tops.new }
{
    let columns = cut.board.width.0 - at.x.0;
    let slot = slot_part(work, cut.board, cut.left, at, columns);
    for (i, &height) in slot.iter().enumerate() {
        pair_shape(cut, at, i, height, line, tops);
    }
}

// The byte of a right side: the height to its top side, where that is lower than at the right side before.
fn kept(before: u8, top: u8, y: u8) -> u8
    requires { y ≤ top }
    ensures { result ≡ kept_byte y before top }
{
    if top < before { top - y } else { 0 }
}

// Writes the slot at a corner from its top sides.
fn keep_slot(slot: &mut [u8], at: Corner, tops: &[u8; TOPS_SIZE])
    requires { Keepable (length slot.old) at tops.now }
    ensures { SlotKept at tops.now slot.new }
{
    let x = at.x.0;
    let y = at.y.0 as u8;
    for (j, byte) in slot.iter_mut().enumerate() {
        *byte = kept(tops[x + j], tops[x + j + 1], y);
    }
}

// Writes the slot of a cut node at one corner.
fn cut_corner(work: &mut [u8], cut: Cut, at: Corner, line: &[u8; LINE_SIZE])
    requires { CornerReady cut.board cut.t at work.old line.now × (cut.left < cut.t) }
    ensures { CornerCut cut line.now at work.old work.new }
{
    let none = (cut.board.height.0 + 1) as u8;
    let mut tops = [none; TOPS_SIZE];
    pair_corner(work, cut, at, line, &mut tops);
    let base = slot_start(cut.board, cut.t, at);
    keep_slot(&mut work[base..base + cut.board.width.0], at, &tops);
}

// Writes the slots of a cut node at the corners of one line.
fn cut_line(work: &mut [u8], cut: Cut, on: Line, line: &mut [u8; LINE_SIZE])
    requires { Cuttable cut work.old × Fillable cut.direction cut.board on.0 line.old }
    ensures written { LineCut cut on.0 work.old work.new }
    ensures tails { TailsNone cut.board line.new }
{
    fill_line(work, cut, on, line);
    let places = cut.places();
    for p in 0..places.0 {
        let at = cut.corner_at(on, Place(p));
        cut_corner(work, cut, at, line);
    }
}

// Writes all slots of a cut node.
pub fn cut_node(work: &mut [u8], cut: Cut)
    requires { Cuttable cut work.old }
    ensures { NodeCut cut work.old work.new }
{
    let none = (cut.board.height.0 + 1) as u8;
    let mut line = [none; LINE_SIZE];
    let lines = cut.lines();
    for n in 0..lines.0 {
        cut_line(work, cut, Line(n), &mut line);
    }
}
