// What is said of each region: where it is, what it needs and holds, its idle cells, and the blocks that it cuts or shares.
#![tactic(auto)]

mod amounts;
mod cutting;
mod signs;

pub use amounts::Amount;
use amounts::{Amounts, Place, cells_of, idle_cells};
use blocks::{Floorplan, Module};
use cutting::say_cuts;
use pen::{Form, Lines};
pub use signs::{letter_of, sign_of};
use std::fmt;

// A region's name and its place: in text with the sign that the picture has for it.
fn say_name(lines: &mut Lines, module: Module) -> fmt::Result {
    let k = module.number;
    let place = Place(module.region);
    match lines.pen.form {
        Form::Text => {
            let sign = sign_of(k);
            lines.say_name(format_args!("{sign}  module {k}: {place}"))
        }
        Form::Svg { .. } => lines.say_name(format_args!("module {k}: {place}")),
    }
}

// What a region needs and holds, and how many of its cells nothing needs.
fn say_contents(lines: &mut Lines, plan: Floorplan, module: Module) -> fmt::Result {
    let grid = plan.grid();
    let needs = Amounts(module.need);
    let holds = Amounts(grid.held_by(module.region));
    let cells = cells_of(module.region);
    let idle = idle_cells(grid, module);
    lines.say_words(format_args!("needs {needs}"))?;
    lines.say_words(format_args!("holds {holds}"))?;
    lines.say_words(format_args!("idle cells: {idle} of {cells}"))
}

// Says all of every region.
pub fn say_regions(lines: &mut Lines, plan: Floorplan) -> fmt::Result {
    // stays: (d) k names a module, whose region and need are asked of the plan.
    for k in 0..plan.modules() {
        let module = plan.module(k);
        say_name(lines, module)?;
        say_contents(lines, plan, module)?;
        say_cuts(lines, plan, module)?;
    }
    Ok(())
}
