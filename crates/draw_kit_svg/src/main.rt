// The draw program on the two-lane pad kit, as SVG.
#![tactic(auto)]

fn main(rt: HostRuntime) {
    drawing::run_draw(rt);
}
