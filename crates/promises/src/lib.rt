// The promises of the three demands, as theorems about the services' contracts alone: no word of code.
#![tactic(auto)]
