ghost use Rattle.std.specs.Prelude.{◌≡◌, ◌&&◌};
ghost use Rattle.finite.specs.Tests.{any};
ghost use Rattle.bitset.specs.Set.{has, Is};
ghost use Rattle.limits.specs.Limits.{slots};
ghost use Rattle.site.specs.Site.{site_of};
ghost use Rattle.site.specs.Ways.{link_number};

use crate::{Link, Site};
use bitset::SlotSet;

impl<'a> Site<'a> {
    // The slots that the link leads to from slot s.
    pub fn targets(&self, link: Link, s: u8) -> SlotSet
        ensures { Is result ((site_of self.now).link (link_number link) s) }
    {
        match link {
            Link::General(m) => self.row(m, s),
            Link::Functional(f) => match self.target(f, s) {
                Some(t) => SlotSet::single(usize::from(t)),
                None => SlotSet::empty(),
            },
        }
    }

    // Does the link lead from slot s into the set? A functional link has one target at most, so that no set of targets is made.
    pub fn leads(&self, link: Link, s: u8, set: &SlotSet) -> bool
        ensures { result ≡ any slots (λ t. (site_of self.now).link (link_number link) s t && has set.now t) }
    {
        match link {
            Link::General(m) => self.row(m, s).meets(set),
            Link::Functional(f) => match self.target(f, s) {
                Some(t) => set.contains(usize::from(t)),
                None => false,
            },
        }
    }
}
