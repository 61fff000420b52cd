// Listing, for every input: the items are tested in their order, then the condition is listed on the site.
#![tactic(auto)]

ghost use Rattle.std.specs.Prelude.{◌≡◌, length, IfOk};
ghost use Rattle.verdict.specs.Verdict.{outcome};
ghost use Rattle.even_rule.specs.Free.{no_masks};
ghost use Rattle.even_rule.specs.Judged.{Judged};
ghost use Rattle.list_entry.specs.Refusal.{pair_verdict};
ghost use Rattle.list_entry.specs.Answer.{found_in};
ghost use Rattle.list_entry.specs.Answered.{ListTried, ListAnswered};

use bitset::SET_BYTES;
use listing::{Found, WORK_BYTES};
use refusals::{check_length, check_limit, check_rounds};
use site::Site;
use verdict::Refusal;

// The site, or the first of items 3 to 6 and 7 to 10 that a site and a condition meet. The free variables of an accepted condition's nodes are
// written to `free`.
pub fn judge_pair<'a>(site: &'a [u8], cond: &[u8], free: &mut [u16]) -> Result<Site<'a>, Refusal>
    requires { free.old ≡ no_masks }
    ensures judged { Judged (pair_verdict site.now cond.now) cond.now free.new (outcome result) }
    ensures site { IfOk result (λ s. s ≡ site.now) }
{
    let site = site::read(site)?;
    even_rule::check(cond, free)?;
    Ok(site)
}

fn try_list(
    site: &[u8],
    cond: &[u8],
    limit: u32,
    set: &mut [u8],
    work: &mut [u8],
) -> Result<Found, Refusal>
    ensures { ListTried limit site.now cond.now (length set.old) (length work.old) set.new work.new result }
{
    check_length(set, SET_BYTES)?; // item 1
    check_length(work, WORK_BYTES)?;
    check_limit(limit)?; // 16
    let mut free = even_rule::no_masks();
    let site = judge_pair(site, cond, &mut free)?; // 3 to 10
    let found = listing::list(&site, cond, &free, limit, set, work);
    check_rounds(limit, found.rounds)?; // 15
    Ok(found)
}

// Lists the condition on the site: writes the set, and answers how many slots it holds and how many rounds were made. Where an item is met both
// buffers become zeros, whatever their lengths.
pub fn list(
    site: &[u8],
    cond: &[u8],
    limit: u32,
    set: &mut [u8],
    work: &mut [u8],
) -> Result<Found, Refusal>
    ensures { ListAnswered limit site.now cond.now set.old set.new work.old work.new (outcome result) (found_in result) }
{
    let answer = try_list(site, cond, limit, set, work);
    if answer.is_err() {
        set.fill(0);
        work.fill(0);
    }
    answer
}
