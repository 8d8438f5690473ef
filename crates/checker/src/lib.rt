// The checker's judgement of a floorplan: from the design and the rows alone, with no lists.
#![tactic(auto)]

ghost use Rattle.std.specs.Prelude.{◌≡◌, ◌+◌, ◌*◌, ◌-◌, ◌≤◌, ◌<◌, length};
ghost use Rattle.rules.specs.Design.{most_modules, LawfulDesign, most_tokens};
ghost use Rattle.rules.specs.Check.{from_rows, is_on_chip, judged_cuts, judged_rows};
ghost use Rattle.rows.specs.Row.{Bytes};
ghost use Rattle.checker.specs.Modules.{judged_module};
ghost use Rattle.checker.specs.Cuts.{ends_before, at_start, after_module, after_cut, after_token, Ready};

use extents::{Extent, extent_of, together};
use holding::suits;
use rows::rectangle_at;
use rules::{Columns, Corner, Design, Direction, MOST_TOKENS, Rectangle, Refusal, Rows, Token};
use tokens::token_of;

// A pass over the tokens: the extents of the things standing, and how many there are.
// stays: (a) a count beside an array, in fixed memory: no list grows where no heap is
#[derive(Clone, Copy)]
struct Pass {
    pub extents: [Extent; MOST_TOKENS],
    pub standing: usize,
}

// Neither side is zero, and the rectangle ends on the chip.
// stays: (d) Bytes, here, in extents and in scoring, and a row's place in rows: a type would be made at each reading.
#[tactic(auto, unfolding(rules::specs::Check::is_on_chip))]
fn is_on_chip(width: Columns, height: Rows, r: Rectangle) -> bool
    requires { Bytes r }
    ensures { result ≡ is_on_chip width.0 height.0 r }
{
    1 <= r.shape.w.0
        && 1 <= r.shape.h.0
        && r.corner.x.0 + r.shape.w.0 <= width.0
        && r.corner.y.0 + r.shape.h.0 <= height.0
}

// The reply to module k alone: off the chip before short of its need.
fn judge_module(d: Design, rows: &[u8], k: usize) -> Result<(), Refusal>
    requires { LawfulDesign d × (k < d.modules) × (4 * d.modules ≤ length rows.now) }
    ensures { result ≡ judged_module d (from_rows rows.now) k }
{
    let r = rectangle_at(rows, k);
    if !is_on_chip(d.chip.width, d.chip.height, r) {
        return Err(Refusal::OffTheChip(k));
    }
    if !suits(d, k, r) {
        return Err(Refusal::ShortOfNeed(k));
    }
    Ok(())
}

// The left child ends at or before the place where the right child begins.
fn is_kept(direction: Direction, l: Extent, r: Extent) -> bool
    ensures { result ≡ ends_before direction l r }
{
    match direction {
        Direction::Vertical => l.far.x.0 <= r.low.x.0,
        Direction::Horizontal => l.far.y.0 <= r.low.y.0,
    }
}

// The pass after a module's token: its extent is put on top.
fn after_module(pass: Pass, extent: Extent) -> Pass
    requires { pass.standing < most_tokens }
    ensures { result ≡ after_module pass extent }
{
    let standing = pass.standing;
    let mut extents = pass.extents;
    extents[standing] = extent;
    Pass {
        extents,
        standing: standing + 1,
    }
}

// The pass after a cut's token, which joins the two things standing last; none where the cut is not kept.
fn after_cut(pass: Pass, direction: Direction) -> Option<Pass>
    requires { (2 ≤ pass.standing) × (pass.standing ≤ most_tokens) }
    ensures { result ≡ after_cut pass direction }
{
    let standing = pass.standing;
    let mut extents = pass.extents;
    let l = extents[standing - 2];
    let r = extents[standing - 1];
    if !is_kept(direction, l, r) {
        return None;
    }
    extents[standing - 2] = together(l, r);
    Some(Pass {
        extents,
        standing: standing - 1,
    })
}

// The pass after one token more; none where a cut is not kept.
fn after_token(pass: Pass, token: Token, rows: &[u8]) -> Option<Pass>
    requires { Ready rows.now pass.standing token }
    ensures { result ≡ after_token (from_rows rows.now) pass token }
{
    match token {
        Token::Cut(direction) => after_cut(pass, direction),
        Token::Module(k) => Some(after_module(pass, extent_of(rectangle_at(rows, k)))),
        Token::Beyond => Some(pass),
    }
}

// The pass before the first token.
#[tactic(auto, unfolding(crate::specs::Cuts::at_start))]
fn at_start() -> Pass
    ensures { result ≡ at_start }
{
    let corner = Corner {
        x: Columns(0),
        y: Rows(0),
    };
    let nowhere = Extent {
        low: corner,
        far: corner,
    };
    Pass {
        extents: [nowhere; MOST_TOKENS],
        standing: 0,
    }
}

// The reply to the cuts, in token order.
fn judge_cuts(d: Design, rows: &[u8]) -> Result<(), Refusal>
    requires { LawfulDesign d × (4 * d.modules ≤ length rows.now) }
    ensures { result ≡ judged_cuts d (from_rows rows.now) }
{
    let nodes = 2 * d.modules - 1;
    let mut pass = at_start();
    // stays: (d) t is the token's position, which the refusal says, and below k the module.
    for t in 0..nodes {
        let Some(next) = after_token(pass, token_of(d.tokens[t]), rows) else {
            return Err(Refusal::CutNotKept(t));
        };
        pass = next;
    }
    Ok(())
}

// The reply to a floorplan in rows, for a lawful design and rows enough: modules in order, then cuts in token order.
pub fn judge_rows(d: Design, rows: &[u8]) -> Result<(), Refusal>
    requires { LawfulDesign d × (4 * d.modules ≤ length rows.now) }
    ensures { result ≡ judged_rows d (from_rows rows.now) }
{
    let modules = d.modules;
    for k in 0..modules {
        judge_module(d, rows, k)?;
    }
    judge_cuts(d, rows)
}
