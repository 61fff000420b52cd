// The job of a file, for every input: items 1, 16, 2 and 18 are tested, then the pieces are taken from the file and run.
#![tactic(auto)]

ghost use Rattle.std.specs.Prelude.{◌≡◌};
ghost use Rattle.verdict.specs.Verdict.{outcome, ◌then◌};
ghost use Rattle.trailer.specs.Refusal.{file_verdict};
ghost use Rattle.refusals.specs.Refusal.{limit_verdict};
ghost use Rattle.job_run.specs.Buffers.{buffers_of};
ghost use Rattle.job_run.specs.Answer.{after_of, today_of, nodes_of, classes_of};
ghost use Rattle.job_entry.specs.Refusal.{buffers_verdict};
ghost use Rattle.job_entry.specs.Answered.{JobAnswered};

use bitset::{SET_BYTES, SET_SLOTS};
use job_run::Report;
use limits::TABLE_BYTES;
use listing::WORK_BYTES;
use refusals::{check_length, check_limit};
use site::SITE_BYTES;
use trailer::Cuts;
use verdict::Refusal;

// Item 1, then item 16, then items 2 and 18.
#[tactic(auto, unfolding(crate::specs::Refusal::buffers_verdict))]
fn check(
    cuts: Cuts,
    limit: u32,
    changed: &[u8],
    table: &[u8],
    after: &[u8],
    today: &[u8],
    classes: &[u8],
    work: &[u8],
) -> Result<(), Refusal>
    ensures { result ≡ buffers_verdict (buffers_of changed.now table.now after.now today.now classes.now work.now) then limit_verdict limit then file_verdict cuts.met cuts.edition }
{
    check_length(changed, SITE_BYTES)?; // item 1
    check_length(table, TABLE_BYTES)?;
    check_length(after, SET_BYTES)?;
    check_length(today, SET_BYTES)?;
    check_length(classes, SET_SLOTS)?;
    check_length(work, WORK_BYTES)?;
    check_limit(limit)?; // 16
    trailer::check(cuts) // 2 and 18
}

// Does the job of a file, each list under the whole limit: writes the site after, the rewritten table, both lists and the class numbers after.
// Where an item is met every buffer becomes zeros, whatever its length.
pub fn run(
    file: &[u8],
    limit: u32,
    changed: &mut [u8],
    table: &mut [u8],
    after: &mut [u8],
    today: &mut [u8],
    classes: &mut [u8],
    work: &mut [u8],
) -> Result<Report, Refusal>
    ensures { JobAnswered limit file.now (buffers_of changed.old table.old after.old today.old classes.old work.old) (buffers_of changed.new table.new after.new today.new classes.new work.new) (outcome result) (after_of result) (today_of result) (nodes_of result) (classes_of result) }
{
    let cuts = trailer::read(file);
    let first = check(cuts, limit, changed, table, after, today, classes, work);
    job_run::run(
        first,
        limit,
        trailer::site(file, cuts),
        trailer::condition(file, cuts),
        trailer::sheet(file, cuts),
        cuts.edition,
        changed,
        table,
        after,
        today,
        classes,
        work,
    )
}
