// The steps of a job on its pieces `site`, `cond` and `sheet`: they are judged; the sheet is applied, into `changed`, and the condition
// rewritten, into `table`; and the rewritten table is listed, into `today`.
#![tactic(auto)]

ghost use Rattle.std.specs.Prelude.{◌≡◌, ◌*◌, ◌≤◌, length, take, replicate};
ghost use Rattle.bitset.specs.Set.{set_bytes};
ghost use Rattle.verdict.specs.Verdict.{Accepted, ◌then◌};
ghost use Rattle.semantics.specs.Table.{form_of};
ghost use Rattle.site.specs.Layout.{site_bytes};
ghost use Rattle.site.specs.Site.{site_of};
ghost use Rattle.site.specs.Refusal.{site_verdict};
ghost use Rattle.condition.specs.Bytes.{table_of};
ghost use Rattle.condition.specs.Refusal.{condition_verdict};
ghost use Rattle.even_rule.specs.Free.{no_masks};
ghost use Rattle.even_rule.specs.Judged.{Judged};
ghost use Rattle.sheet.specs.Refusal.{sheet_verdict};
ghost use Rattle.limits.specs.Limits.{table_bytes, highest_limit};
ghost use Rattle.listing.specs.Listed.{work_bytes};
ghost use Rattle.listing.specs.Limited.{Limited};
ghost use Rattle.job_steps.specs.Steps.{Changed};

use limits::NODE_BYTES;
use listing::Found;
use site::Site;
use verdict::Refusal;

// Items 3 to 12 of the three pieces. The free variables of an accepted condition's nodes are written to `free`.
pub fn judge(site: &[u8], cond: &[u8], sheet: &[u8], free: &mut [u16]) -> Result<(), Refusal>
    requires { free.old ≡ no_masks }
    ensures { Judged (site_verdict site.now then condition_verdict cond.now then sheet_verdict sheet.now) cond.now free.new result }
{
    site::check(site)?; // items 3 to 6
    even_rule::check(cond, free)?; // 7 to 10
    sheet::check(sheet) // 11 and 12
}

// The site after and the rewritten table, or item 13 or 14. Gives how many nodes the table has.
pub fn change(
    site: &[u8],
    cond: &[u8],
    sheet: &[u8],
    edition: u32,
    changed: &mut [u8],
    table: &mut [u8],
) -> Result<u32, Refusal>
    requires site_value { (site_verdict site.now ≡ Accepted) × ((condition_verdict cond.now ≡ Accepted) × (sheet_verdict sheet.now ≡ Accepted)) }
    requires changed_len { (length changed.old ≡ site_bytes) × (length table.old ≡ table_bytes) }
    ensures { Changed edition site.now cond.now sheet.now changed.old changed.new table.old table.new result }
{
    applying::apply(site, sheet, edition, changed)?; // item 13
    rewriting::rewrite_sheet(cond, sheet, edition, table) // 14
}

// What an accepted part of the rewritten table lists on a site, where it makes no more rounds than the limit.
fn list(site: &Site, part: &[u8], limit: u32, today: &mut [u8], work: &mut [u8]) -> Found
    requires part { condition_verdict part.now ≡ Accepted }
    requires limit_le_highest_limit { limit ≤ highest_limit }
    requires today_len { (length today.old ≡ set_bytes) × (length work.old ≡ work_bytes) }
    ensures limited { Limited limit (site_of site.now) (form_of (table_of part.now)) today.new result }
    ensures work_after { work.new ≡ replicate work_bytes 0 }
{
    let mut free = even_rule::no_masks();
    let _ = even_rule::check(part, &mut free);
    listing::list(site, part, &free, limit, today, work)
}

// What the first n nodes of the rewritten table list on a site, where they make no more rounds than the limit.
pub fn list_first(
    site: &Site,
    table: &[u8],
    n: u32,
    limit: u32,
    today: &mut [u8],
    work: &mut [u8],
) -> Found
    requires room { 6 * n ≤ length table.now }
    requires part { condition_verdict (take (6 * n) table.now) ≡ Accepted }
    requires limit_le_highest_limit { limit ≤ highest_limit }
    requires today_len { (length today.old ≡ set_bytes) × (length work.old ≡ work_bytes) }
    ensures limited { Limited limit (site_of site.now) (form_of (table_of (take (6 * n) table.now))) today.new result }
    ensures work_after { work.new ≡ replicate work_bytes 0 }
{
    list(site, &table[..NODE_BYTES * n as usize], limit, today, work)
}
