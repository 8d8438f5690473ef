// The draw program on a plan of another design: the checker refuses the rows, and nothing is drawn.
#![tactic(auto)]

fn main(rt: HostRuntime) {
    drawing::run_draw(rt);
}
