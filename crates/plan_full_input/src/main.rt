// The plan program on as many bytes as it reads.
#![tactic(auto)]

fn main(rt: HostRuntime) {
    running::run_plan(&rt);
}
