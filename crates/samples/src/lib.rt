// No code: small examples worked out by hand, as theorems in proofs/.
#![tactic(auto)]
