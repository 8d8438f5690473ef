// Draws a floorplan: standard input has a header line, a design's bytes and the plan program's text.
#![tactic(auto)]

fn main(rt: HostRuntime) {
    drawing::run_draw(rt);
}
