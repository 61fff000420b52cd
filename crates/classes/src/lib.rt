// The class numbers of a site's slots: a partition, refined round by round until a round changes nothing.
#![tactic(auto)]

ghost use Rattle.std.specs.Prelude.{◌≡◌};
ghost use Rattle.finite.specs.Tests.{any};
ghost use Rattle.bitset.specs.Set.{set_slots};
ghost use Rattle.semantics.specs.Refine.{bisimilar_in};
ghost use Rattle.site.specs.Site.{site_of};
ghost use Rattle.partition.specs.Rows.{in_row, Used};
ghost use Rattle.partition.specs.Partition.{Partition, Partitions, by_seen, Refines};
ghost use Rattle.classes.specs.Classes.{Classes, different};
ghost use Rattle.classes.specs.Features.{FeatureRows};

use bitset::{SET_SLOTS, SlotSet};
use limits::{Below, LABELS, NAMES};
use neighbours::{WAYS, Ways};
use partition::Rows;
use signatures::Members;
use site::Site;

// The features of a slot, as members of a row: that it is present, its labels, its names.
const LABELS_FROM: usize = 1;

const NAMES_FROM: usize = LABELS_FROM + site::LABELS;

// The features of each slot, as rows.
fn features_of(site: &Site) -> Rows
    ensures { FeatureRows (site_of site.now) result }
{
    let mut rows = [SlotSet::empty(); SET_SLOTS];
    partition::put(&mut rows, site.present_slots(), 0);
    for p in 0..LABELS {
        let labelled = site.labelled(Below::at(p));
        partition::put(&mut rows, labelled, LABELS_FROM + usize::from(p));
    }
    for n in 0..NAMES {
        let s = site.place(Below::at(n));
        rows[usize::from(s)].insert(NAMES_FROM + usize::from(n));
    }
    rows
}

// The partition before the first round: one class, split by the features of its slots.
fn start(site: &Site) -> [u8; SET_SLOTS]
    ensures { Partitions (bisimilar_in 0 (site_of site.now) (site_of site.now)) result }
{
    splitting::by_rows(&[0; SET_SLOTS], &features_of(site))
}

// The classes of q, split by the classes of p that their slots reach by a way. One that is not used splits none.
fn split(q: &[u8; SET_SLOTS], rows: &Rows, used: bool, p: &Members) -> [u8; SET_SLOTS]
    requires partition { Partition q.now }
    requires used { used ≡ any set_slots (λ s. any set_slots (in_row rows.now s)) }
    ensures { Partitions (by_seen q.now rows.now p.now.numbers) result }
{
    if used {
        splitting::by_seen(q, rows, p)
    } else {
        *q
    }
}

// One round: the classes of p, split by the classes of p that their slots reach by each way.
fn round(ways: &Ways, used: &[bool; WAYS], p: [u8; SET_SLOTS]) -> [u8; SET_SLOTS]
    requires used { Used ways.now used.now }
    requires partition { Partition p }
    ensures { Refines ways.now p result }
{
    let members = Members::new(p);
    let mut q = p;
    for w in 0..WAYS {
        q = split(&q, &ways[w], used[w], &members);
    }
    q
}

// The class number of each slot.
pub fn refine(site: &Site) -> [u8; SET_SLOTS]
    ensures { Classes (site_of site.now) result }
{
    let mut ways = [[SlotSet::empty(); SET_SLOTS]; WAYS];
    let used = neighbours::of_site(site, &mut ways);
    let mut p = start(site);
    for _round in 0..SET_SLOTS {
        let q = round(&ways, &used, p);
        if q == p {
            return p;
        }
        p = q;
    }
    p
}

// How many different numbers there are.
pub fn count(classes: &[u8; SET_SLOTS]) -> u32
    ensures { result ≡ different classes.now }
{
    let mut seen = SlotSet::empty();
    for &class in classes {
        seen.insert(usize::from(class));
    }
    seen.len()
}
