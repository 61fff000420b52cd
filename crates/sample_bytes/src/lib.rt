// No code: the examples of `samples` over bytes, as theorems in proofs/.
#![tactic(auto)]
