// Small chains of docs/SPEC.md, "The chain behind a place", proved on models: definitions and laws alone, in specs/ and proofs/.
#![tactic(auto)]
