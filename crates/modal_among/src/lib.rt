// The slots of a set from which a way leads into another set. Along a link only the slots of the first set are looked at where it has few, while
// `modal::diamond` looks at all.
#![tactic(auto)]

ghost use Rattle.std.specs.Prelude.{◌≡◌, ◌&&◌};
ghost use Rattle.finite.specs.Tests.{any};
ghost use Rattle.bitset.specs.Set.{has, Is};
ghost use Rattle.limits.specs.Limits.{slots};
ghost use Rattle.site.specs.Site.{site_of};
ghost use Rattle.site.specs.Ways.{link_number, meant};
ghost use Rattle.modal_among.specs.Among.{Among};

use bitset::SlotSet;
use site::{Link, Site, Way};

// Where a set has fewer slots than this, it takes less time to go from one to the next than to look at all 256 slots.
const FEW: u32 = 64;

// The slots of `pool` from which the link leads into the set.
fn leading(site: &Site, link: Link, set: &SlotSet, pool: &SlotSet) -> SlotSet
    ensures { Is result (λ s. has pool.now s && any slots (λ t. (site_of site.now).link (link_number link) s t && has set.now t)) }
{
    if FEW <= pool.len() {
        return modal::diamond(site, Way::Along(link), set) & *pool;
    }
    let mut found = SlotSet::empty();
    for s in *pool {
        if site.leads(link, s as u8, set) {
            found.insert(s);
        }
    }
    found
}

// The slots of `pool` from which the way leads into the set.
pub fn among(site: &Site, way: Way, set: &SlotSet, pool: &SlotSet) -> SlotSet
    ensures { Among (site_of site.now) (meant way) set.now pool.now result }
{
    if let Way::Along(link) = way {
        return leading(site, link, set, pool);
    }
    modal::diamond(site, way, set) & *pool
}
