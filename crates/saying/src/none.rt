// No placement: told by sums where they alone tell, of what the chip has and what the modules need.
ghost use Rattle.std.specs.Prelude.{◌≡◌};
ghost use Rattle.std.proofs.Math.Bool.{So};
ghost use Rattle.rules.specs.Design.{lawful_chip, LawfulDesign};

use holding::held;
use rules::{Chip, Columns, Corner, Design, Need, Rectangle, Rows, Shape};
use std::fmt;
use std::fmt::Write;
use telling::Text;

// A kind: what the chip has of it, and what the modules need.
#[derive(Clone, Copy)]
struct Kind {
    name: &'static str,
    has: usize,
    need: usize,
}

impl fmt::Display for Kind {
    fn fmt<W: Write>(&self, f: &mut fmt::Formatter<W>) -> fmt::Result {
        let Kind { name, has, need } = *self;
        write!(f, "the chip has {has} {name}, the modules need {need}")
    }
}

// What the chip has: what a rectangle over all of it holds.
#[tactic(auto, using(rules::proofs::Limits::chip_limits))]
fn chip_has(chip: Chip) -> Need
    requires { So (lawful_chip chip) }
{
    let corner = Corner {
        x: Columns(0),
        y: Rows(0),
    };
    let shape = Shape {
        w: chip.width,
        h: chip.height,
    };
    held(chip, Rectangle { corner, shape })
}

// What the modules need, all together.
#[tactic(auto, using(rules::proofs::Limits::limits, crate::proofs::Needs::need_within))]
fn modules_need(design: Design) -> Need
    requires { LawfulDesign design }
{
    let mut sum = Need {
        clbs: 0,
        rams: 0,
        multipliers: 0,
    };
    for need in &design.needs[..design.modules] {
        sum.clbs += need.clbs;
        sum.rams += need.rams;
        sum.multipliers += need.multipliers;
    }
    sum
}

// Puts why there is no placement.
#[tactic(auto, using(rules::proofs::Limits::lawful_chip_lem))]
pub fn put_no_placement(line: &mut Text, design: Design) -> fmt::Result
    requires { LawfulDesign design }
    ensures { line.new.room ≡ line.old.room }
{
    let has = chip_has(design.chip);
    let need = modules_need(design);
    let kinds = [
        Kind {
            name: "CLBs",
            has: has.clbs,
            need: need.clbs,
        },
        Kind {
            name: "RAMs",
            has: has.rams,
            need: need.rams,
        },
        Kind {
            name: "multipliers",
            has: has.multipliers,
            need: need.multipliers,
        },
    ];
    let mut short = kinds.iter().filter(|kind| kind.has < kind.need);
    write!(line, "no placement: ")?;
    let Some(first) = short.next() else {
        return write!(
            line,
            "the chip has enough of each, but not in rectangles that lie as the tree says"
        );
    };
    write!(line, "{first}")?;
    for kind in short {
        write!(line, "; {kind}")?;
    }
    Ok(())
}
