// A sheet applied to a site: the site that it leaves, or the first edit that does not go through.
#![tactic(auto)]

ghost use Rattle.std.specs.Prelude.{◌≡◌, length};
ghost use Rattle.verdict.specs.Verdict.{Accepted};
ghost use Rattle.site.specs.Layout.{site_bytes};
ghost use Rattle.site.specs.Refusal.{site_verdict};
ghost use Rattle.sheet.specs.Refusal.{sheet_verdict};
ghost use Rattle.applying.specs.Applies.{Ran, Applies};

use site::{SITE_BYTES, Site};
use verdict::Refusal;

// Applies the edits in order, up to the first that does not go through.
fn run(site: &mut [u8; SITE_BYTES], sheet: &[u8], edition: u32) -> Result<(), Refusal>
    requires { sheet_verdict sheet.now ≡ Accepted }
    ensures { Ran edition site.old sheet.now site.new result }
{
    for k in 0..sheet.len() / 4 {
        let edit = sheet::edit_at(sheet, edition, k);
        if !going::goes_through(&Site::from(&*site), edit) {
            return Err(Refusal::NotThrough(k as u16));
        }
        edits::apply_edit(site, edit);
    }
    Ok(())
}

// Writes the site that the sheet leaves, and zeros where an edit does not go through.
pub fn apply(site: &[u8], sheet: &[u8], edition: u32, res: &mut [u8]) -> Result<(), Refusal>
    requires { (site_verdict site.now ≡ Accepted) × ((sheet_verdict sheet.now ≡ Accepted) × (length res.old ≡ site_bytes)) }
    ensures { Applies edition site.now sheet.now res.new result }
{
    buffer::copy(res, site, site.len()); // by std it would need `memmove`, which the archive does not
    let Some(after) = res.as_mut_array::<SITE_BYTES>() else {
        unreachable!()
    };
    let answer = run(after, sheet, edition);
    if answer.is_err() {
        after.fill(0);
    }
    answer
}
