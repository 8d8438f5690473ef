// The plan program on a design whose lists take 23 bytes more than its work, the fewest that any takes.
#![tactic(auto)]

fn main(rt: HostRuntime) {
    running::run_plan(&rt);
}
