// The demands, over bytes, and their proofs. No code.
#![tactic(auto)]
