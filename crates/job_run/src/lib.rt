// A job on the pieces `site`, `cond` and `sheet` of its file, with the edition of the sheet. The caller's buffers are `changed` for the site after, `table` for the
// rewritten table, `after` and `today` for the lists on the site after and on the site, `classes` for the class numbers, and `work`.
#![tactic(auto)]

ghost use Rattle.std.specs.Prelude.{◌≡◌, ◌≤◌};
ghost use Rattle.verdict.specs.Verdict.{Accepted};
ghost use Rattle.limits.specs.Limits.{highest_limit};
ghost use Rattle.job_run.specs.Buffers.{buffers_of, Sized};
ghost use Rattle.job_run.specs.Steps.{Zeros, Tried, Ran};

use listing::Found;
use refusals::check_rounds;
use site::Site;
use verdict::Refusal;

// The answer of a job that is done: how many slots are listed and how many rounds made on the site after, and today; how many nodes the
// rewritten table has; and how many different class numbers there are.
#[derive(Clone, Copy)]
pub struct Report {
    pub after: Found,
    pub today: Found,
    pub nodes: u32,
    pub classes: u32,
}

// Zeros in every buffer, whatever its length.
pub fn zero(
    changed: &mut [u8],
    table: &mut [u8],
    after: &mut [u8],
    today: &mut [u8],
    classes: &mut [u8],
    work: &mut [u8],
)
    ensures { Zeros (buffers_of changed.old table.old after.old today.old classes.old work.old) (buffers_of changed.new table.new after.new today.new classes.new work.new) }
{
    changed.fill(0);
    table.fill(0);
    after.fill(0);
    today.fill(0);
    classes.fill(0);
    work.fill(0);
}

// The items of `first`, then 3 to 15. Where one of the lists makes more rounds than the limit, nothing more is done.
fn try_run(
    first: Result<(), Refusal>,
    limit: u32,
    site: &[u8],
    cond: &[u8],
    sheet: &[u8],
    edition: u32,
    changed: &mut [u8],
    table: &mut [u8],
    after: &mut [u8],
    today: &mut [u8],
    classes: &mut [u8],
    work: &mut [u8],
) -> Result<Report, Refusal>
    requires limit { first ≡ Accepted → limit ≤ highest_limit }
    requires sized { first ≡ Accepted → Sized (buffers_of changed.old table.old after.old today.old classes.old work.old) }
    ensures { Tried edition first limit site.now cond.now sheet.now (buffers_of changed.old table.old after.old today.old classes.old work.old) (buffers_of changed.new table.new after.new today.new classes.new work.new) result }
{
    first?;
    let mut free = even_rule::no_masks();
    job_steps::judge(site, cond, sheet, &mut free)?; // items 3 to 12
    let nodes = job_steps::change(site, cond, sheet, edition, changed, table)?; // 13 and 14
    let Some(site_after) = Site::new(changed) else {
        unreachable!()
    };
    let listed_after = listing::list(&site_after, cond, &free, limit, after, work);
    check_rounds(limit, listed_after.rounds)?; // 15
    let Some(site) = Site::new(site) else {
        unreachable!()
    };
    let listed_today = job_steps::list_first(&site, table, nodes, limit, today, work);
    check_rounds(limit, listed_today.rounds)?;
    Ok(Report {
        after: listed_after,
        today: listed_today,
        nodes,
        classes: classes_entry::number(&site_after, classes),
    })
}

// Does the job of three pieces, whatever they are, each list under the whole limit. `first` is the verdict on all that is tested before the
// pieces: item 1, so that buffers which pass have the stated lengths, the limit, and the file that the pieces come from. Where an item is met
// every buffer becomes zeros, whatever its length.
pub fn run(
    first: Result<(), Refusal>,
    limit: u32,
    site: &[u8],
    cond: &[u8],
    sheet: &[u8],
    edition: u32,
    changed: &mut [u8],
    table: &mut [u8],
    after: &mut [u8],
    today: &mut [u8],
    classes: &mut [u8],
    work: &mut [u8],
) -> Result<Report, Refusal>
    requires limit { first ≡ Accepted → limit ≤ highest_limit }
    requires sized { first ≡ Accepted → Sized (buffers_of changed.old table.old after.old today.old classes.old work.old) }
    ensures { Ran edition first limit site.now cond.now sheet.now (buffers_of changed.old table.old after.old today.old classes.old work.old) (buffers_of changed.new table.new after.new today.new classes.new work.new) result }
{
    let answer = try_run(
        first, limit, site, cond, sheet, edition, changed, table, after, today, classes, work,
    );
    if answer.is_err() {
        zero(changed, table, after, today, classes, work);
    }
    answer
}
