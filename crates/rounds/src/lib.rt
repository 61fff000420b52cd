// How many rounds listing a condition makes: its definition and what is proved of it, in specs/ and proofs/. No code.
#![tactic(auto)]
