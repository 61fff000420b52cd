// The entry points of the desk: the answers in numbers. Every input has its answer: nothing is required of it. Its functions for C, which are the
// same, stand in the crate desk_c.
#![tactic(auto)]

ghost use Rattle.desk.specs.Returned.{ReturnedList, ReturnedApply, ReturnedRewrite, ReturnedThrough, ReturnedClasses, ReturnedChain, ReturnedJob};
ghost use Rattle.listing.specs.Listed.{found_of};
ghost use Rattle.job_run.specs.Buffers.{buffers_of};

mod answers;

pub use answers::{ApplyAnswer, ChainAnswer, ClassesAnswer, JobAnswer, ListAnswer, RewriteAnswer};

pub fn desk_list(
    site: &[u8],
    cond: &[u8],
    limit: u32,
    set: &mut [u8],
    work: &mut [u8],
) -> ListAnswer
    ensures { ReturnedList limit site.now cond.now set.old set.new work.old work.new result.reason result.fault (found_of result.count result.rounds) }
{
    list_entry::list(site, cond, limit, set, work).into()
}

pub fn desk_apply(site: &[u8], sheet: &[u8], edition: u32, res: &mut [u8]) -> ApplyAnswer
    ensures { ReturnedApply edition site.now sheet.now res.old res.new result.reason result.fault }
{
    apply_entry::apply(site, sheet, edition, res).into()
}

pub fn desk_rewrite(table: &[u8], sheet: &[u8], edition: u32, res: &mut [u8]) -> RewriteAnswer
    ensures { ReturnedRewrite edition table.now sheet.now res.old res.new result.reason result.fault result.nodes }
{
    rewrite_entry::rewrite(table, sheet, edition, res).into()
}

pub fn desk_through(sheet: &[u8], edition: u32, res: &mut [u8]) -> RewriteAnswer
    ensures { ReturnedThrough edition sheet.now res.old res.new result.reason result.fault result.nodes }
{
    rewrite_entry::through(sheet, edition, res).into()
}

pub fn desk_classes(site: &[u8], classes: &mut [u8]) -> ClassesAnswer
    ensures { ReturnedClasses site.now classes.old classes.new result.reason result.fault result.count }
{
    classes_entry::classes(site, classes).into()
}

pub fn desk_chain(
    site: &[u8],
    goal: &[u8],
    way: u32,
    start: u32,
    chain: &mut [u8],
    set: &mut [u8],
    work: &mut [u8],
) -> ChainAnswer
    ensures { ReturnedChain site.now goal.now way start chain.old chain.new set.old set.new work.old work.new result.reason result.fault result.found result.steps }
{
    chain_entry::chain(site, goal, way, start, chain, set, work).into()
}

pub fn desk_job(
    file: &[u8],
    limit: u32,
    changed: &mut [u8],
    table: &mut [u8],
    after: &mut [u8],
    today: &mut [u8],
    classes: &mut [u8],
    work: &mut [u8],
) -> JobAnswer
    ensures { ReturnedJob limit file.now (buffers_of changed.old table.old after.old today.old classes.old work.old) (buffers_of changed.new table.new after.new today.new classes.new work.new) result.reason result.fault (found_of result.after result.after_rounds) (found_of result.today result.today_rounds) result.nodes result.classes }
{
    job_entry::run(file, limit, changed, table, after, today, classes, work).into()
}
