// Cases: what the definitions of llrb and witness_trees compute, against what the Rust itself gave. No code.
#![tactic(auto)]
