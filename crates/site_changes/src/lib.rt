// Changes of a site at slots, of which the edits are made: definitions in specs/, laws on bytes in proofs/, and what names and targets share.
#![tactic(auto)]

ghost use Rattle.std.specs.Prelude.{◌≡◌, cond};
ghost use Rattle.finite.specs.Tests.{same};

// Slot p, or nil where that is slot s.
#[tactic(auto, unfolding(finite::specs::Tests::same))]
pub fn unless(p: u8, s: u8) -> u8
    ensures { result ≡ cond (same p s) 0 p }
{
    if p == s { 0 } else { p }
}
