// Items 1, 15 and 16, which several entry points test; in specs/ and proofs/ also item 17, how many items there are, and laws of all items.
#![tactic(auto)]

ghost use Rattle.std.specs.Prelude.{◌≡◌, length};
ghost use Rattle.refusals.specs.Refusal.{buffer_verdict, limit_verdict, rounds_verdict};

use limits::HIGHEST_LIMIT;
use verdict::Refusal;

// Item 1, of one buffer and its stated length.
pub fn check_length(buffer: &[u8], stated: usize) -> Result<(), Refusal>
    ensures { result ≡ buffer_verdict (length buffer.now) stated }
{
    if buffer.len() == stated {
        Ok(())
    } else {
        Err(Refusal::BufferLength)
    }
}

// Item 16.
pub fn check_limit(limit: u32) -> Result<(), Refusal>
    ensures { result ≡ limit_verdict limit }
{
    if limit <= HIGHEST_LIMIT {
        Ok(())
    } else {
        Err(Refusal::Limit)
    }
}

// Item 15, of a list that makes so many rounds.
pub fn check_rounds(limit: u32, rounds: u32) -> Result<(), Refusal>
    ensures { result ≡ rounds_verdict limit rounds }
{
    if rounds <= limit {
        Ok(())
    } else {
        Err(Refusal::Rounds)
    }
}
