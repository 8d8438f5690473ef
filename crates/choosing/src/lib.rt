// Choosing one floorplan from stored lists, whatever bytes they are: the root's shape of least area, at each cut the first pair, and
// the rectangles that going down gives.
#![tactic(auto)]

ghost use Rattle.std.specs.Prelude.{◌≡◌, IfSome, suc, ◌+◌, ◌-◌, ◌*◌, ◌≤◌, ◌<◌, max, length};
ghost use Rattle.rules.specs.Chip.{corner, shape};
ghost use Rattle.rules.specs.Tree.{token_of};
ghost use Rattle.rules.specs.Choice.{beside, pairing};
ghost use Rattle.rules.specs.Design.{most_tokens, most_columns, most_modules};
ghost use Rattle.slots.specs.Lent.{OnBoard, slots_on, Lent};
ghost use Rattle.choosing.specs.Choose.{Near, Storable, IsSlot, byte_in, shape_at, chosen_shape, better_of, pair_in, taken_if};
ghost use Rattle.choosing.specs.Choose.{IsFirst, makes_whole, pair_at, pair_beside, FirstBeside};
ghost use Rattle.choosing.specs.Descend.{first_descent, down_leaf, given_rooms, down_cut, down_token, Settled, LaysOut};

use rules::{Columns, Corner, Direction, MOST_MODULES, MOST_TOKENS, Rectangle, Rows, Shape, Token};
use slots::{Board, slot_start};
use tokens::token_of;

const ORIGIN: Corner = Corner {
    x: Columns(0),
    y: Rows(0),
};

// The stored lists of a tree's first nodes: the bytes lent for them, and the board at whose corners they stand.
#[derive(Clone, Copy)]
pub struct Lists<'a> {
    pub work: &'a [u8],
    pub board: Board,
    pub nodes: usize,
    pub ghost lent: { Lent board nodes work.now },
}

// What the search for a pair finds: the left child's shape and the right child's.
#[derive(Clone, Copy)]
pub struct Pair {
    pub left: Shape,
    pub right: Shape,
}

// How far going down has come: the rectangles given to nodes and to modules.
#[derive(Clone, Copy)]
pub struct Descent {
    pub rooms: [Rectangle; MOST_TOKENS],
    pub places: [Rectangle; MOST_MODULES],
}

impl<'a> Lists<'a> {
    // The slot of node t at a corner.
    fn slot(self, t: usize, at: Corner) -> &'a [u8]
        requires { (t < self.nodes) × OnBoard self.board at }
        ensures { IsSlot self.entry.board.width.0 (slots_on self.entry.board self.entry.work.now t at) result.now }
    {
        let from = slot_start(self.board, t, at);
        &self.work[from..from + self.board.width.0]
    }
}

// The shape that byte j of a slot stores; its height is 0 where there is none.
// stays: (a) that 0 is the slot's own form (01, Lists), and `makes_whole` and `pair_with` test it (here and below, `h.0 == 0`).
fn shape_at(j: usize, byte: u8) -> Shape
    requires { j < most_columns }
    ensures { (result ≡ shape (suc j) byte) × Storable result }
{
    Shape {
        w: Columns(j + 1),
        h: Rows(usize::from(byte)),
    }
}

// The better of the best shape so far and a wider one: the wider if it is the first, or has less area.
fn better_of(best: Option<Shape>, next: Shape) -> Option<Shape>
    requires { IfSome best (λ s. Storable s) × Storable next }
    ensures { result ≡ better_of best next }
{
    if next.h.0 == 0 {
        return best;
    }
    match best {
        Some(s) if s.w.0 * s.h.0 <= next.w.0 * next.h.0 => best,
        _ => Some(next),
    }
}

// The best shape of a slot.
fn best_in(slot: &[u8]) -> Option<Shape>
    requires { length slot.now ≤ most_columns }
    ensures { result ≡ chosen_shape (length slot.now) (byte_in slot.now) }
{
    let mut best = None;
    for (j, byte) in slot.iter().enumerate() {
        best = better_of(best, shape_at(j, *byte));
    }
    best
}

// The shape to choose from the list of node t at (0, 0): that of least area, of equals the narrowest; none if the list is empty.
pub fn best_shape(lists: Lists, t: usize) -> Option<Shape>
    requires { t < lists.nodes }
    ensures { let l = lists.entry in
        result ≡ chosen_shape l.board.width.0 (slots_on l.board l.work.now t (corner 0 0)) }
{
    best_in(lists.slot(t, ORIGIN))
}

// The corner of the right child, beside or above the left child's shape.
fn beside_of(direction: Direction, at: Corner, left: Shape) -> Corner
    requires { Near (beside direction at left) }
    ensures { result ≡ beside direction at left }
{
    match direction {
        Direction::Vertical => Corner {
            x: Columns(at.x.0 + left.w.0),
            y: at.y,
        },
        Direction::Horizontal => Corner {
            x: at.x,
            y: Rows(at.y.0 + left.h.0),
        },
    }
}

// The box of two shapes, the right one beside or above the left one.
fn box_of(direction: Direction, left: Shape, right: Shape) -> Shape
    requires { Storable left × Storable right }
    ensures { result ≡ pairing direction left right }
{
    match direction {
        Direction::Vertical => Shape {
            w: Columns(left.w.0 + right.w.0),
            h: Rows(left.h.0.max(right.h.0)),
        },
        Direction::Horizontal => Shape {
            w: Columns(left.w.0.max(right.w.0)),
            h: Rows(left.h.0 + right.h.0),
        },
    }
}

// The two shapes, if the right one is there and their box is the whole.
#[tactic(auto, unfolding(crate::specs::Choose::makes_whole))]
fn pair_if(direction: Direction, left: Shape, right: Shape, whole: Shape) -> Option<Pair>
    requires { Storable left × Storable right }
    ensures { result ≡ taken_if (makes_whole direction left right whole) left right }
{
    let both = box_of(direction, left, right);
    let taken = 0 < right.h.0 && both.w.0 == whole.w.0 && both.h.0 == whole.h.0;
    taken.then_some(Pair { left, right })
}

// The first right shape, in a slot, that makes the whole with this left one.
#[tactic(auto, unfolding(crate::specs::Choose::pair_at))]
fn right_in(slot: &[u8], direction: Direction, left: Shape, whole: Shape) -> Option<Pair>
    requires { (length slot.now ≤ most_columns) × Storable left }
    ensures { IsFirst (pair_at direction left whole (byte_in slot.now)) (length slot.now) result }
{
    slot.iter().enumerate().find_map(|(j, byte)| {
        pair_if(direction, left, shape_at(j, *byte), whole)
    })
}

// The first pair with this left shape. Beyond the chip's last column or row there is no corner, and so no pair.
fn pair_with(
    lists: Lists,
    direction: Direction,
    right: usize,
    left: Shape,
    room: Rectangle,
) -> Option<Pair>
    requires { (right < lists.nodes) × OnBoard lists.board room.corner × Storable left }
    ensures { let l = lists.entry in
        result ≡ pair_beside l.board direction (slots_on l.board l.work.now right) room.corner room.shape left }
{
    if left.h.0 == 0 {
        return None;
    }
    let corner = beside_of(direction, room.corner, left);
    if lists.board.width.0 <= corner.x.0 || lists.board.height.0 <= corner.y.0 {
        return None;
    }
    right_in(lists.slot(right, corner), direction, left, room.shape)
}

// The first pair, for a cut of this room, with a left shape in a slot.
fn left_in(
    slot: &[u8],
    lists: Lists,
    direction: Direction,
    right: usize,
    room: Rectangle,
) -> Option<Pair>
    requires { (length slot.now ≤ most_columns) × (right < lists.nodes) × OnBoard lists.board room.corner }
    ensures { let l = lists.entry in
        FirstBeside l.board (slots_on l.board l.work.now) direction right room slot.now result }
{
    slot.iter().enumerate().find_map(|(i, byte)| {
        pair_with(lists, direction, right, shape_at(i, *byte), room)
    })
}

// The pair to take at a cut of this room: the first left shape that has a right one, and the first such right one.
pub fn find_pair(
    lists: Lists,
    direction: Direction,
    left: usize,
    right: usize,
    room: Rectangle,
) -> Option<Pair>
    requires { (left < lists.nodes) × (right < lists.nodes) × OnBoard lists.board room.corner }
    ensures { let l = lists.entry in
        result ≡ pair_in l.board (slots_on l.board l.work.now) direction left right room.corner room.shape }
{
    left_in(lists.slot(left, room.corner), lists, direction, right, room)
}

// "A leaf's rectangle is its shape at its corner."
fn down_leaf(k: usize, t: usize, mut descent: Descent) -> Descent
    requires { (k < most_modules) × (t < most_tokens) }
    ensures { result ≡ down_leaf k t descent }
{
    descent.places[k] = descent.rooms[t];
    descent
}

// The two children of a cut get their rectangles.
fn given(
    mut descent: Descent,
    left: usize,
    left_room: Rectangle,
    right: usize,
    right_room: Rectangle,
) -> Descent
    requires { (left < most_tokens) × (right < most_tokens) }
    ensures { result ≡ given_rooms left left_room right right_room descent }
{
    descent.rooms[left] = left_room;
    descent.rooms[right] = right_room;
    descent
}

// Going down at a cut, if it has a pair: its children get the shapes of the pair, the right one beside the left one. The left child
// stands before the right child, which stands just before the cut.
fn down_cut(
    lists: Lists,
    direction: Direction,
    left: usize,
    t: usize,
    descent: Descent,
) -> Option<Descent>
    requires { (t < lists.nodes) × Settled lists.board descent × (left ≤ 255) }
    ensures { let l = lists.entry in
        result ≡ down_cut l.board (slots_on l.board l.work.now) direction left t descent }
{
    if t <= left + 1 {
        return None;
    }
    let room = descent.rooms[t];
    let pair = find_pair(lists, direction, left, t - 1, room)?;
    let corner = beside_of(direction, room.corner, pair.left);
    let left_room = Rectangle {
        corner: room.corner,
        shape: pair.left,
    };
    let right_room = Rectangle {
        corner,
        shape: pair.right,
    };
    Some(given(descent, left, left_room, t - 1, right_room))
}

// Going down at node t, whose token has this value; if it is a cut, its left child stands at this position.
fn down_node(lists: Lists, v: u8, left: u8, t: usize, descent: Descent) -> Option<Descent>
    requires { (t < lists.nodes) × Settled lists.board descent }
    ensures { let l = lists.entry in
        result ≡ down_token l.board (slots_on l.board l.work.now) (token_of most_modules v) left t descent }
{
    match token_of(v) {
        Token::Cut(direction) => down_cut(lists, direction, usize::from(left), t, descent),
        Token::Module(k) => Some(down_leaf(k, t, descent)),
        Token::Beyond => None,
    }
}

// Going down from the root's shape at (0, 0).
#[tactic(auto, unfolding(crate::specs::Descend::first_descent))]
fn first_descent(nodes: usize, shape: Shape) -> Descent
    requires { (1 ≤ nodes) × (nodes ≤ most_tokens) }
    ensures { result ≡ first_descent nodes shape }
{
    let nowhere = Rectangle {
        corner: ORIGIN,
        shape: Shape {
            w: Columns(0),
            h: Rows(0),
        },
    };
    let mut rooms = [nowhere; MOST_TOKENS];
    rooms[nodes - 1] = Rectangle {
        corner: ORIGIN,
        shape,
    };
    Descent {
        rooms,
        places: [nowhere; MOST_MODULES],
    }
}

// The rectangles that going down from the root's shape at (0, 0) gives, if every cut has a pair.
pub fn lay_out(
    lists: Lists,
    tokens: [u8; MOST_TOKENS],
    lefts: [u8; MOST_TOKENS],
    shape: Shape,
) -> Option<[Rectangle; MOST_MODULES]>
    requires { 1 ≤ lists.nodes }
    ensures { let l = lists.entry in
        LaysOut l.board (slots_on l.board l.work.now) tokens lefts l.nodes shape result }
{
    let mut descent = first_descent(lists.nodes, shape);
    // stays: (d) t is the node, which going down takes too, and not only a place in two arrays.
    for t in (0..lists.nodes).rev() {
        descent = down_node(lists, tokens[t], lefts[t], t, descent)?;
    }
    Some(descent.places)
}
