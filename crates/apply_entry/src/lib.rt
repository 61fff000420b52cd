// Applying, for every input: the items are tested in their order, and the sheet is applied.
#![tactic(auto)]

ghost use Rattle.std.specs.Prelude.{◌≡◌, length};
ghost use Rattle.verdict.specs.Verdict.{Accepted};
ghost use Rattle.apply_entry.specs.Refusal.{apply_verdict};
ghost use Rattle.apply_entry.specs.Applying.{SiteWritten};
ghost use Rattle.apply_entry.specs.Answered.{ApplyAnswered};

use refusals::check_length;
use site::SITE_BYTES;
use verdict::Refusal;

#[tactic(auto, unfolding(crate::specs::Refusal::apply_verdict))]
fn try_apply(site: &[u8], sheet: &[u8], edition: u32, res: &mut [u8]) -> Result<(), Refusal>
    ensures verdict { result ≡ apply_verdict edition (length res.old) site.now sheet.now }
    ensures written { result ≡ Accepted → SiteWritten edition site.now sheet.now res.new }
{
    check_length(res, SITE_BYTES)?; // item 1
    editions::check(edition)?; // 18
    site::check(site)?; // 3 to 6
    sheet::check(sheet)?; // 11 and 12
    applying::apply(site, sheet, edition, res) // 13
}

// Writes the site that the whole sheet leaves. Where an item is met the result becomes zeros, whatever its length.
pub fn apply(site: &[u8], sheet: &[u8], edition: u32, res: &mut [u8]) -> Result<(), Refusal>
    ensures { ApplyAnswered edition site.now sheet.now res.old res.new result }
{
    let answer = try_apply(site, sheet, edition, res);
    if answer.is_err() {
        res.fill(0);
    }
    answer
}
