// The plan program.
#![tactic(auto)]

fn main(rt: HostRuntime) {
    running::run_plan(&rt);
}
