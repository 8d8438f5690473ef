// What a caller lends, as a contract speaks of it (specs/). No function.
#![tactic(auto)]
