// Tests of numbers below a bound: definitions and laws alone, in specs/ and proofs/.
#![tactic(auto)]
