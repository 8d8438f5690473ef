// The draw program on the design D, as SVG.
#![tactic(auto)]

fn main(rt: HostRuntime) {
    drawing::run_draw(rt);
}
