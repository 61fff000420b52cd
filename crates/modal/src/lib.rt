// Diamonds and boxes of a site's ways on sets of slots, by whole rows.
#![tactic(auto)]

ghost use Rattle.std.specs.Prelude.{◌≡◌, not, ◌&&◌, ◌||◌};
ghost use Rattle.finite.specs.Tests.{any, all};
ghost use Rattle.bitset.specs.Set.{has, Is};
ghost use Rattle.limits.specs.Limits.{slots};
ghost use Rattle.semantics.specs.Holds.{step};
ghost use Rattle.site.specs.Site.{site_of};
ghost use Rattle.site.specs.Ways.{link_number, meant};

use bitset::SlotSet;
use site::{Link, Site, Way};

// The slots from which the link leads into the set.
fn preimage(site: &Site, link: Link, set: &SlotSet) -> SlotSet
    ensures { Is result (λ s. any slots (λ t. (site_of site.now).link (link_number link) s t && has set.now t)) }
{
    let mut found = SlotSet::empty();
    for s in 0..=u8::MAX {
        if site.leads(link, s, set) {
            found.insert(usize::from(s));
        }
    }
    found
}

// Adds the slots that the link leads to from slot t. The target by a functional link is put in as it is: a set of it alone took twice as long.
fn add_targets(site: &Site, link: Link, t: u8, found: &mut SlotSet)
    ensures { Is found.new (λ s. has found.old s || (site_of site.now).link (link_number link) t s) }
{
    match link {
        Link::General(m) => *found = *found | site.row(m, t),
        Link::Functional(f) => match site.target(f, t) {
            Some(s) => found.insert(usize::from(s)),
            None => {}
        },
    }
}

// The slots that the link leads to from the set.
fn image(site: &Site, link: Link, set: &SlotSet) -> SlotSet
    ensures { Is result (λ s. any slots (λ t. (site_of site.now).link (link_number link) t s && has set.now t)) }
{
    let mut found = SlotSet::empty();
    for t in *set {
        add_targets(site, link, t as u8, &mut found);
    }
    found
}

// The slots from which the way reaches some slot of the set.
pub fn diamond(site: &Site, way: Way, set: &SlotSet) -> SlotSet
    ensures { Is result (λ s. any slots (λ t. step (site_of site.now) (meant way) s t && has set.now t)) }
{
    match way {
        Way::Along(link) => preimage(site, link, set),
        Way::Against(link) => image(site, link, set),
        Way::Everywhere if set.is_empty() => SlotSet::empty(),
        Way::Everywhere => SlotSet::full(),
    }
}

// The slots from which the way reaches slots of the set alone: from the others it reaches one outside.
pub fn boxed(site: &Site, way: Way, set: &SlotSet) -> SlotSet
    ensures { Is result (λ s. all slots (λ t. not (step (site_of site.now) (meant way) s t) || has set.now t)) }
{
    let outside = !*set;
    !diamond(site, way, &outside)
}
