// Bytes that are put into lent ones, one part behind the other: what it means (specs/), and its laws (proofs/). No function.
#![tactic(auto)]
