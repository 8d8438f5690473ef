// What a rectangle on the chip holds, counted column by column, and whether it suits a module.
#![tactic(auto)]

ghost use Rattle.std.specs.Prelude.{◌≡◌, ◌*◌, ◌≤◌, ◌<◌};
ghost use Rattle.std.proofs.Math.Bool.{So};
ghost use Rattle.rules.specs.Chip.{OnChip, holds};
ghost use Rattle.rules.specs.Design.{most_columns, most_rows, last_kind, width_of, height_of, lawful_chip, LawfulDesign};
ghost use Rattle.rules.specs.Check.{is_at_most, is_suited};
ghost use Rattle.rules.proofs.Test.{blocks_between};
ghost use Rattle.holding.specs.Held.{EachUpTo, with_column};

use rules::{Chip, Design, Need, Rectangle, Rows};

// How many blocks stand whole in the rows from low to before far, where each is so many rows high.
#[tactic(auto, unfolding(rules::proofs::Test::blocks_between))]
pub fn blocks_between(block: Rows, low: Rows, far: Rows) -> usize
    requires { (0 < block.0) × (block.0 ≤ most_rows) × (low.0 ≤ most_rows) × (far.0 ≤ most_rows) }
    ensures { (result ≡ blocks_between block.0 low.0 far.0) × (result ≤ most_rows) }
{
    // divided in 32 bits: the numbers are small, and no processor divides slower so
    let high = block.0 as u32;
    let first = (low.0 as u32 + (high - 1)) / high;
    let end = far.0 as u32 / high;
    end.saturating_sub(first) as usize
}

// What is held with one column more, which adds what it holds of its own kind.
// stays: (a) kinds are numbers in a chip, where rules' limits and the value test speak of 3 and more.
#[tactic(auto, unfolding(crate::specs::Held::with_column))]
pub fn with_column(held: Need, kind: u8, column: Need) -> Need
    requires { (kind ≤ last_kind) × EachUpTo (most_columns * most_rows) held × EachUpTo most_rows column }
    ensures { result ≡ with_column held kind column }
{
    match kind {
        0 => Need {
            clbs: held.clbs + column.clbs,
            ..held
        },
        1 => Need {
            rams: held.rams + column.rams,
            ..held
        },
        // kind 2, the last one
        _ => Need {
            multipliers: held.multipliers + column.multipliers,
            ..held
        },
    }
}

// What a rectangle on the chip holds of each kind, counted column by column.
pub fn held(chip: Chip, r: Rectangle) -> Need
    requires { So (lawful_chip chip) × OnChip chip.width.0 chip.height.0 r }
    ensures { result ≡ holds chip r }
{
    let blocks = blocks_between(chip.block, r.corner.y, Rows(r.corner.y.0 + r.shape.h.0));
    let column = Need {
        clbs: r.shape.h.0,
        rams: blocks,
        multipliers: blocks,
    };
    let left = r.corner.x.0;
    let right = left + r.shape.w.0;
    let mut held = Need {
        clbs: 0,
        rams: 0,
        multipliers: 0,
    };
    for kind in &chip.kinds[left..right] {
        held = with_column(held, *kind, column);
    }
    held
}

// What is held is at least the need, of each kind.
// stays: (d) no order of Need: a derived one would be lexical.
#[tactic(auto, unfolding(rules::specs::Check::is_at_most))]
pub fn is_at_most(need: Need, held: Need) -> bool
    ensures { result ≡ is_at_most need held }
{
    need.clbs <= held.clbs && need.rams <= held.rams && need.multipliers <= held.multipliers
}

// A rectangle on the chip holds what module k needs.
#[tactic(auto, using(rules::proofs::Limits::limits, rules::proofs::Limits::lawful_chip_lem))]
pub fn suits(design: Design, k: usize, r: Rectangle) -> bool
    requires { LawfulDesign design × (k < design.modules) × OnChip (width_of design) (height_of design) r }
    ensures { result ≡ is_suited design k r }
{
    is_at_most(design.needs[k], held(design.chip, r))
}
