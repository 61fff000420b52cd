// Class numbers, for every input: the items are tested in their order, and the slots are numbered.
#![tactic(auto)]

ghost use Rattle.std.specs.Prelude.{◌≡◌, length, IfOk};
ghost use Rattle.verdict.specs.Verdict.{outcome};
ghost use Rattle.site.specs.Site.{site_of};
ghost use Rattle.classes.specs.Classes.{Classes, different};
ghost use Rattle.classes_entry.specs.Refusal.{classes_bytes, classes_verdict};
ghost use Rattle.classes_entry.specs.Answer.{count_of};
ghost use Rattle.classes_entry.specs.Answered.{ClassesAnswered};

use refusals::check_length;
use site::Site;
use verdict::Refusal;

const CLASSES_BYTES: usize = 256;

// Writes the class number of each slot of a site, valid or not, and answers how many different ones there are.
pub fn number(site: &Site, classes: &mut [u8]) -> u32
    requires { length classes.old ≡ classes_bytes }
    ensures classes { Classes (site_of site.now) classes.new }
    ensures value { result ≡ different classes.new }
{
    let numbers = classes::refine(site);
    classes.copy_from_slice(&numbers);
    classes::count(&numbers)
}

#[tactic(auto, unfolding(crate::specs::Refusal::classes_verdict))]
fn try_classes(site: &[u8], classes: &mut [u8]) -> Result<u32, Refusal>
    ensures verdict { outcome result ≡ classes_verdict (length classes.old) site.now }
    ensures numbered { IfOk result (λ n. Classes (site_of site.now) classes.new × (n ≡ different classes.new)) }
{
    check_length(classes, CLASSES_BYTES)?; // item 1
    let site = site::read(site)?; // 3 to 6
    Ok(number(&site, classes))
}

// Writes the class number of each of the site's slots, and answers how many different ones there are. Where an item is met the buffer becomes
// zeros, whatever its length.
pub fn classes(site: &[u8], classes: &mut [u8]) -> Result<u32, Refusal>
    ensures { ClassesAnswered site.now classes.old classes.new (outcome result) (count_of result) }
{
    let answer = try_classes(site, classes);
    if answer.is_err() {
        classes.fill(0);
    }
    answer
}
