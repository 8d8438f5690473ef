// The draw program where two regions cut one block.
#![tactic(auto)]

fn main(rt: HostRuntime) {
    drawing::run_draw(rt);
}
