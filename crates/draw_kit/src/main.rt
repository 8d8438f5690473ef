// The draw program on the two-lane pad kit, where a region cuts a block.
#![tactic(auto)]

fn main(rt: HostRuntime) {
    drawing::run_draw(rt);
}
