// The blocks that a region cuts: of which it has some rows, and not all. They are not counted, and each one is said, with every
// other region that has rows of it.
use crate::amounts::rows_of;
use blocks::{Block, Floorplan, Module};
use pen::Lines;
use std::fmt;

// Says that a module's region cuts a block.
fn say_cut(lines: &mut Lines, module: Module, block: Block) -> fmt::Result {
    let kind = block.kind;
    let x = block.place.left().0;
    let rows = rows_of(block.place.rows());
    let has = rows_of(module.region.common_rows(block.place));
    lines.say_words(format_args!(
        "cuts the {kind} block in column {x}, {rows}: has {has} of it, and the block is not counted"
    ))?;
    lines.pen.count_cut();
    Ok(())
}

// Says each region but a module's that has rows of the block.
fn say_shares(lines: &mut Lines, plan: Floorplan, module: Module, block: Block) -> fmt::Result {
    // stays: (d) the range names modules, and indexes no slice.
    for other in 0..plan.modules() {
        let r = plan.region(other);
        if other != module.number && r.meets(block.place) {
            let has = rows_of(r.common_rows(block.place));
            lines.say_words(format_args!(
                "shares that block with module {other}, which has {has} of it"
            ))?;
        }
    }
    Ok(())
}

// Says each block that a module's region cuts, or that there is none.
pub fn say_cuts(lines: &mut Lines, plan: Floorplan, module: Module) -> fmt::Result {
    let before = lines.pen.cuts;
    plan.grid().each_cut(module.region, |block| {
        say_cut(lines, module, block)?;
        say_shares(lines, plan, module, block)
    })?;
    if lines.pen.cuts == before {
        lines.say_words("cuts no block")?;
    }
    Ok(())
}
