// The editions of sheets, and item 18.
#![tactic(auto)]

ghost use Rattle.std.specs.Prelude.{◌≡◌};
ghost use Rattle.editions.specs.Edition as editions;

use verdict::Refusal;

pub const FIRST: u32 = 1;

pub const SECOND: u32 = 2;

// Is there such an edition?
pub fn known(edition: u32) -> bool
    ensures { result ≡ editions.known edition }
{
    (edition == FIRST) | (edition == SECOND)
}

// The outcome of item 18.
#[tactic(auto, unfolding(crate::specs::Edition::edition_verdict))]
pub fn check(edition: u32) -> Result<(), Refusal>
    ensures { result ≡ editions.edition_verdict edition }
{
    if known(edition) {
        Ok(())
    } else {
        Err(Refusal::Edition)
    }
}
