// The condition for going through: its definition and what is proved of it, in specs/ and proofs/. No code.
#![tactic(auto)]
