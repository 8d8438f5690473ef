// The plan program on the longest lawful design: all of it is read.
#![tactic(auto)]

fn main(rt: HostRuntime) {
    running::run_plan(&rt);
}
