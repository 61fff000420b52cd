// Rewriting and the condition for going through, for every input: the items are tested in their order, and the table is made.
#![tactic(auto)]

ghost use Rattle.std.specs.Prelude.{◌≡◌, length, IfOk};
ghost use Rattle.verdict.specs.Verdict.{Accepted, outcome};
ghost use Rattle.through.specs.Through.{through};
ghost use Rattle.sheet.specs.Bytes.{edits_of};
ghost use Rattle.rewriting.specs.Answer.{nodes_of};
ghost use Rattle.rewriting.specs.Rewriting.{rewritten, TableAfter};
ghost use Rattle.rewrite_entry.specs.Refusal.{rewrite_verdict, through_verdict};
ghost use Rattle.rewrite_entry.specs.Answered.{RewriteAnswered, ThroughAnswered};

use limits::TABLE_BYTES;
use refusals::check_length;
use verdict::Refusal;

#[tactic(auto, unfolding(crate::specs::Refusal::rewrite_verdict))]
fn try_rewrite(table: &[u8], sheet: &[u8], edition: u32, res: &mut [u8]) -> Result<u32, Refusal>
    ensures verdict { outcome result ≡ rewrite_verdict edition (length res.old) table.now sheet.now }
    ensures made { IfOk result (TableAfter Accepted (rewritten edition table.now sheet.now) res.old res.new) }
{
    check_length(res, TABLE_BYTES)?; // item 1
    editions::check(edition)?; // 18
    even_rule::check(table, &mut even_rule::no_masks())?; // 7 to 10
    sheet::check(sheet)?; // 11 and 12
    rewriting::rewrite_sheet(table, sheet, edition, res) // 14
}

// Rewrites the condition through the sheet: writes the table, and answers how many nodes it has. Where an item is met the result becomes zeros,
// whatever its length.
pub fn rewrite(table: &[u8], sheet: &[u8], edition: u32, res: &mut [u8]) -> Result<u32, Refusal>
    ensures { RewriteAnswered edition table.now sheet.now res.old res.new (outcome result) (nodes_of result) }
{
    let answer = try_rewrite(table, sheet, edition, res);
    if answer.is_err() {
        res.fill(0);
    }
    answer
}

#[tactic(auto, unfolding(crate::specs::Refusal::through_verdict))]
fn try_through(sheet: &[u8], edition: u32, res: &mut [u8]) -> Result<u32, Refusal>
    ensures verdict { outcome result ≡ through_verdict edition (length res.old) sheet.now }
    ensures made { IfOk result (TableAfter Accepted (through (edits_of edition sheet.now)) res.old res.new) }
{
    check_length(res, TABLE_BYTES)?; // item 1
    editions::check(edition)?; // 18, before the sheet
    sheet::check(sheet)?; // 11 and 12
    rewriting::through_sheet(sheet, edition, res) // 14
}

// The condition for going through the sheet: writes the table, and answers how many nodes it has. Where an item is met the result becomes zeros,
// whatever its length.
pub fn through(sheet: &[u8], edition: u32, res: &mut [u8]) -> Result<u32, Refusal>
    ensures { ThroughAnswered edition sheet.now res.old res.new (outcome result) (nodes_of result) }
{
    let answer = try_through(sheet, edition, res);
    if answer.is_err() {
        res.fill(0);
    }
    answer
}
