// The plan program on one byte more than it reads.
#![tactic(auto)]

fn main(rt: HostRuntime) {
    running::run_plan(&rt);
}
