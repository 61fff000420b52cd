// The meaning of sites, conditions, sheets and classes: definitions and theorems alone, in specs/ and proofs/.
#![tactic(auto)]
