ghost use Rattle.std.specs.Prelude.{◌≡◌, MatchResult};
ghost use Rattle.listing.specs.Counting.{Within, counted, left_of};

// More rounds than the limit allows.
#[derive(Clone, Copy, PartialEq, Eq, Debug)]
pub(crate) struct OverLimit;

// The limit that is left once some rounds were made.
pub(crate) fn remaining(limit: Option<u32>, made: u32) -> Option<u32>
    requires { Within limit made }
    ensures { result ≡ left_of limit made }
{
    match limit {
        Some(limit) => Some(limit - made),
        None => None,
    }
}

// These rounds, if they are within the limit. Without a limit none is counted.
pub(crate) fn count(limit: Option<u32>, made: u32) -> Result<u32, OverLimit>
    ensures { MatchResult result (λ n. (n ≡ counted limit made) × Within limit made) (λ _. ¬ Within limit made) }
{
    match limit {
        Some(limit) if limit < made => Err(OverLimit),
        Some(_) => Ok(made),
        None => Ok(0),
    }
}
