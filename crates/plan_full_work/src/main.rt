// The plan program on a design whose lists take all of its work.
#![tactic(auto)]

fn main(rt: HostRuntime) {
    running::run_plan(&rt);
}
