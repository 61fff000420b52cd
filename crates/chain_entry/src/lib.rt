// The chain behind a place, for every input: the items are tested in their order, the goal is listed, and the chain or the set is given.
#![tactic(auto)]

ghost use Rattle.std.specs.Prelude.{◌≡◌, ℕ, length, replicate, IsOk, IfOk};
ghost use Rattle.bitset.specs.Set.{set_bytes};
ghost use Rattle.limits.specs.Limits.{table_nodes};
ghost use Rattle.verdict.specs.Verdict.{Accepted, outcome};
ghost use Rattle.semantics.specs.Table.{way_of};
ghost use Rattle.site.specs.Site.{site_of};
ghost use Rattle.site.specs.Ways.{meant};
ghost use Rattle.condition.specs.Refusal.{condition_verdict};
ghost use Rattle.even_rule.specs.Free.{FreeRows};
ghost use Rattle.listing.specs.Listed.{work_bytes};
ghost use Rattle.refusals.specs.Refusal.{start_verdict};
ghost use Rattle.chains.specs.Given.{chain_bytes};
ghost use Rattle.chain_entry.specs.Refusal.{chain_verdict};
ghost use Rattle.chain_entry.specs.Answer.{found_of, steps_of};
ghost use Rattle.chain_entry.specs.Answered.{Searched, ChainAnswered};

use bitset::{SET_BYTES, SlotSet};
use chaining::{CHAIN_BYTES, Ending};
use listing::WORK_BYTES;
use refusals::check_length;
use site::{Site, Way};
use verdict::Refusal;

// The ways of a chain are those before the one that leads everywhere.
const EVERY: u32 = limits::EVERY as u32;

// Item 17: the way is one of 0 to 15, and the start a present slot.
fn start_of(site: &Site, way: u32, start: u32) -> Result<(Way, u8), Refusal>
    ensures verdict { outcome result ≡ start_verdict (site_of site.now) way start }
    ensures pair { IfOk result (λ p. (meant p.0 ≡ way_of way) × (p.1 ≡ start)) }
{
    if way >= EVERY {
        return Err(Refusal::Start);
    }
    let Ok(slot) = u8::try_from(start) else {
        return Err(Refusal::Start);
    };
    if !site.present(slot) {
        return Err(Refusal::Start);
    }
    Ok((Way::from(way as u8), slot))
}

// Lists the goal, however many rounds that makes, and gives the chain and how many steps it has, or the set.
fn search(
    site: &Site,
    cond: &[u8],
    free: &[u16],
    way: Way,
    start: u8,
    chain: &mut [u8],
    set: &mut [u8],
    work: &mut [u8],
) -> Option<u32>
    requires cond_value { condition_verdict cond.now ≡ Accepted }
    requires free_len { (length free.now ≡ table_nodes) × FreeRows cond.now free.now }
    requires chain_len { (length chain.old ≡ chain_bytes) × ((length set.old ≡ set_bytes) × (length work.old ≡ work_bytes)) }
    ensures searched { (n : ℕ) → meant way ≡ way_of n → Searched site.now cond.now n start chain.new set.new result }
    ensures work_after { work.new ≡ replicate work_bytes 0 }
{
    listing::list_all(site, cond, free, set, work);
    let goal = SlotSet::read(set);
    match chaining::search(site, way, start, &goal, chain, work) {
        Ending::Steps(steps) => {
            set.fill(0);
            Some(u32::from(steps))
        }
        Ending::Reached(reached) => {
            reached.write(set);
            None
        }
    }
}

#[tactic(auto, unfolding(crate::specs::Refusal::chain_verdict))]
fn try_chain(
    site: &[u8],
    cond: &[u8],
    way: u32,
    start: u32,
    chain: &mut [u8],
    set: &mut [u8],
    work: &mut [u8],
) -> Result<Option<u32>, Refusal>
    ensures verdict { outcome result ≡ chain_verdict (length chain.old) (length set.old) (length work.old) site.now cond.now way start }
    ensures searched { IfOk result (Searched site.now cond.now way start chain.new set.new) }
    ensures work_after { IsOk result → work.new ≡ replicate (length work.old) 0 }
{
    check_length(chain, CHAIN_BYTES)?; // item 1
    check_length(set, SET_BYTES)?;
    check_length(work, WORK_BYTES)?;
    let mut free = even_rule::no_masks();
    let site = list_entry::judge_pair(site, cond, &mut free)?; // 3 to 10
    let (way, start) = start_of(&site, way, start)?; // 17
    Ok(search(&site, cond, &free, way, start, chain, set, work))
}

// The chain from the start along the way to a slot that the condition lists, with how many steps it has; where there is none, the set of the slots
// that can be reached. Where an item is met the three buffers become zeros, whatever their lengths.
pub fn chain(
    site: &[u8],
    cond: &[u8],
    way: u32,
    start: u32,
    chain: &mut [u8],
    set: &mut [u8],
    work: &mut [u8],
) -> Result<Option<u32>, Refusal>
    ensures { ChainAnswered site.now cond.now way start chain.old chain.new set.old set.new work.old work.new (outcome result) (found_of result) (steps_of result) }
{
    let answer = try_chain(site, cond, way, start, chain, set, work);
    if answer.is_err() {
        chain.fill(0);
        set.fill(0);
        work.fill(0);
    }
    answer
}
