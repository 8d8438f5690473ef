// All nodes of a design, or those on the way of an edit, listed child before parent. Where all nodes are listed, a
// cut's children have their own lists, and it is listed by the source's short scan; an edit may stand on a stranger's
// stairs, and pairs all stored shapes.
#![tactic(auto)]

ghost use Rattle.std.specs.Prelude.{◌≤◌, ◌<◌, length};
ghost use Rattle.rules.specs.Design.{LawfulDesign, nodes};
ghost use Rattle.rules.specs.Service.{work_of};
ghost use Rattle.cuts.specs.Cut.{NodeCut};
ghost use Rattle.listing.specs.Making.{Listable, CutReady, MayScan, MayScanAll};
ghost use Rattle.listing.specs.Making.{NodeMade, Made, is_marked, on_way, ListedAfresh};

use cuts::{Cut, cut_node};
use rules::{Design, MOST_TOKENS, Token};
use scans::scan_node;
use slots::board_of;
use tokens::token_of;

// How a cut is listed: by the scan over its children's own lists, or by all pairs of the shapes stored there.
// stays: (a) MayScanAll, which docs/PROMISES.md names, is over it; a closure's clauses would be over all bytes.
#[derive(Clone, Copy)]
enum By {
    Scan,
    Pairs,
}

// Lists a cut from its children's slots.
fn list_cut(work: &mut [u8], cut: Cut, by: By)
    requires { CutReady by cut work.old }
    ensures { NodeCut cut work.old work.new }
{
    match by {
        By::Scan => scan_node(work, cut),
        By::Pairs => cut_node(work, cut),
    }
}

// Lists node t: a leaf from its need, a cut from its children's slots. Its right child stands just before it.
fn list_node(work: &mut [u8], design: Design, lefts: [u8; MOST_TOKENS], t: usize, by: By)
    requires { Listable design lefts work.old × (t < nodes design) × MayScan by design t work.old }
    ensures { NodeMade design t work.old work.new }
{
    let board = board_of(design);
    let token = token_of(design.tokens[t]);
    match token {
        Token::Cut(direction) => {
            let cut = Cut {
                board,
                direction,
                t,
                left: lefts[t] as usize,
                right: t - 1,
            };
            list_cut(work, cut, by);
        }
        Token::Module(k) => {
            let need = design.needs[k];
            leaves::leaf_node(work, board, design.chip, need, t);
        }
        Token::Beyond => {}
    }
}

// Lists the marked nodes, child before parent.
// stays: (c) tried over a slice of the marks; of an array by value the proof lacks the length (length marks ≡ most_tokens).
fn list_marked(
    work: &mut [u8],
    design: Design,
    lefts: [u8; MOST_TOKENS],
    marks: [bool; MOST_TOKENS],
    by: By,
)
    requires { Listable design lefts work.old × MayScanAll by design marks }
    ensures { Made design (is_marked marks) (nodes design) work.old work.new }
{
    let nodes = 2 * design.modules - 1;
    for t in 0..nodes {
        if marks[t] {
            list_node(work, design, lefts, t, by);
        }
    }
}

// Lists all nodes.
pub fn list_all(work: &mut [u8], design: Design)
    requires { LawfulDesign design × (work_of design ≤ length work.old) }
    ensures { ListedAfresh design work.old work.new }
{
    let lefts = trees::left_children(design);
    list_marked(work, design, lefts, [true; MOST_TOKENS], By::Scan);
}

// Lists the nodes on the way from a position up to the root.
pub fn list_way(work: &mut [u8], design: Design, at: usize)
    requires { LawfulDesign design × (work_of design ≤ length work.old) }
    ensures { Made design (on_way design at) (nodes design) work.old work.new }
{
    let lefts = trees::left_children(design);
    let marks = trees::way_up(design, lefts, at);
    list_marked(work, design, lefts, marks, By::Pairs);
}
