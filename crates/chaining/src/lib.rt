// The chain behind a place: rounds from the start or from the goal until they meet, and a walk from the start; or, where they do not, the slots
// that can be reached. The rows of a link are stored by the slot that it leads from, so that a round is cheap from the slots that the link
// leads from to those that it leads to: along a link from the start, against it from the goal.
#![tactic(auto)]

ghost use Rattle.std.specs.Prelude.{◌≡◌, true, false, ◌&&◌, ◌*◌, ◌≤◌, ◌<◌, length, replicate, IfSome, IsNone};
ghost use Rattle.finite.specs.Tests.{same, any, first};
ghost use Rattle.bitset.specs.Set.{set_slots, has};
ghost use Rattle.limits.specs.Limits.{slots};
ghost use Rattle.semantics.specs.Holds.{step};
ghost use Rattle.site.specs.Site.{site_of};
ghost use Rattle.site.specs.Ways.{meant};
ghost use Rattle.chains.specs.Given.{chain_bytes};
ghost use Rattle.chains.specs.Reached as reached;
ghost use Rattle.chains.specs.Shortest.{Away};
ghost use Rattle.chains.specs.Directed.{Layered};
ghost use Rattle.chaining.specs.Rounds.{set_no, Fresh, Spread, Pruned, Searched};
ghost use Rattle.chaining.specs.Walk.{Walked};
ghost use Rattle.chaining.specs.Answer.{Answer, search_bytes};

use bitset::{SET_BYTES, SET_SLOTS, SlotSet};
use site::{Site, Way};

// The bytes of a chain: it has no slot twice.
pub const CHAIN_BYTES: usize = SET_SLOTS;

// How a search ends: after so many steps; or with the slots that were found, where no more can be.
#[derive(Clone, Copy)]
pub enum Ending {
    Steps(u8),
    Reached(SlotSet),
}

// The way back.
fn reverse(way: Way) -> Way
    ensures { meant result ≡ reached.reverse (meant way) }
{
    match way {
        Way::Along(link) => Way::Against(link),
        Way::Against(link) => Way::Along(link),
        Way::Everywhere => Way::Everywhere,
    }
}

// The slots outside the set from which the way leads into `front`.
fn fresh(site: &Site, way: Way, front: &SlotSet, set: &SlotSet) -> SlotSet
    ensures { Fresh (site_of site.now) (meant way) front.now set.now result }
{
    let unseen = !*set;
    modal_among::among(site, way, front, &unseen)
}

// Rounds from `source`: writes the slots from which the way leads to it in 0, 1, .. steps, and no fewer, until some of these are in `stop` or a
// round adds nothing.
fn spread(
    site: &Site,
    way: Way,
    source: &SlotSet,
    stop: &SlotSet,
    fronts: &mut [[u8; SET_BYTES]],
) -> Ending
    requires { set_slots ≤ length fronts.old }
    ensures { Spread (site_of site.now) (meant way) (has source.now) (has stop.now) result fronts.new }
{
    let mut found = *source;
    let mut front = *source;
    for k in 0..SET_SLOTS {
        front.write(&mut fronts[k]);
        if front.meets(stop) {
            return Ending::Steps(k as u8);
        }
        front = fresh(site, way, &front, &found);
        if front.is_empty() {
            return Ending::Reached(found);
        }
        found = found | front;
    }
    Ending::Reached(found)
}

// From the last front back to the first, the slots that lead on to the goal: writes the goal as layer 0, and as layer j + 1 those slots of front
// n - 1 - j from which the way leads into layer j. The fronts are of the slots that are 0 to n steps from the start.
fn prune(
    site: &Site,
    way: Way,
    goal: &SlotSet,
    n: u8,
    fronts: &[[u8; SET_BYTES]],
    layers: &mut [[u8; SET_BYTES]],
)
    requires fronts_len { set_slots ≤ length fronts.now }
    requires layers_len { set_slots ≤ length layers.old }
    ensures { Pruned (site_of site.now) (meant way) (has goal.now) n fronts.now layers.new n }
{
    let last = usize::from(n);
    let mut layer = *goal;
    layer.write(&mut layers[0]);
    for j in 0..last {
        let front = SlotSet::read(&fronts[last - 1 - j]);
        let next = modal_among::among(site, way, &layer, &front);
        next.write(&mut layers[j + 1]);
        layer = next;
    }
}

// The search for a way along a link. The rows are those of the slots that a link leads from, so that it goes on from the start, to the goal.
fn from_start(
    site: &Site,
    way: Way,
    start: u8,
    goal: &SlotSet,
    layers: &mut [[u8; SET_BYTES]],
    fronts: &mut [[u8; SET_BYTES]],
) -> Ending
    requires layers_len { set_slots ≤ length layers.old }
    requires fronts_len { set_slots ≤ length fronts.old }
    ensures { Searched (site_of site.now) (meant way) (has goal.now) start result layers.new }
{
    let one = SlotSet::single(usize::from(start));
    match spread(site, reverse(way), &one, goal, fronts) {
        Ending::Steps(n) => {
            prune(site, way, goal, n, fronts, layers);
            Ending::Steps(n)
        }
        Ending::Reached(set) => Ending::Reached(set),
    }
}

// The search for a way against a link: back from the goal, to the start. Where that is not found, the slots that can be reached.
fn from_goal(
    site: &Site,
    way: Way,
    start: u8,
    goal: &SlotSet,
    layers: &mut [[u8; SET_BYTES]],
) -> Ending
    requires { set_slots ≤ length layers.old }
    ensures { Searched (site_of site.now) (meant way) (has goal.now) start result layers.new }
{
    let one = SlotSet::single(usize::from(start));
    match spread(site, way, goal, &one, layers) {
        Ending::Steps(n) => Ending::Steps(n),
        Ending::Reached(_) => {
            let back = reverse(way);
            let nowhere = SlotSet::empty();
            spread(site, back, &one, &nowhere, layers)
        }
    }
}

// The steps to the goal, with a layer for each number of steps that are left; or the slots that can be reached.
fn measure(
    site: &Site,
    way: Way,
    start: u8,
    goal: &SlotSet,
    layers: &mut [[u8; SET_BYTES]],
    fronts: &mut [[u8; SET_BYTES]],
) -> Ending
    requires layers_len { set_slots ≤ length layers.old }
    requires fronts_len { set_slots ≤ length fronts.old }
    ensures { Searched (site_of site.now) (meant way) (has goal.now) start result layers.new }
{
    match way {
        Way::Along(_) => from_start(site, way, start, goal, layers, fronts),
        _ => from_goal(site, way, start, goal, layers),
    }
}

// The lowest slot of the set to which a step leads from slot x; `back` is the way back.
fn nearest(site: &Site, back: Way, x: u8, set: &SlotSet) -> Option<usize>
    ensures some { IfSome result (λ s. (s < set_slots) × (s ≡ first slots (λ t. has set.now t && any slots (λ u. step (site_of site.now) (meant back) t u && same u x)))) }
    ensures none { IsNone result → any slots (λ t. has set.now t && any slots (λ u. step (site_of site.now) (meant back) t u && same u x)) ≡ false }
{
    let one = SlotSet::single(usize::from(x));
    modal_among::among(site, back, &one, set).lowest()
}

// Writes the chain of n steps from the start: each next slot is the lowest in the layer of the steps that are left after it.
fn descend(site: &Site, way: Way, start: u8, n: u8, layers: &[[u8; SET_BYTES]], chain: &mut [u8])
    requires layers_len { set_slots ≤ length layers.now }
    requires chain_value { chain.old ≡ replicate chain_bytes 0 }
    requires away { Away (site_of site.now) (meant way) (set_no layers.now 0) n start }
    requires layered { Layered (site_of site.now) (meant way) (set_no layers.now 0) start n (set_no layers.now) }
    ensures { Walked (site_of site.now) (meant way) (set_no layers.now 0) start n chain.new }
{
    let last = usize::from(n);
    let back = reverse(way);
    chain[0] = start;
    for i in 0..last {
        let layer = SlotSet::read(&layers[last - 1 - i]);
        let Some(next) = nearest(site, back, chain[i], &layer) else {
            unreachable!()
        };
        chain[i + 1] = next as u8;
    }
}

// The search over the sets of the work buffer: a layer for each number of steps, and then a front.
fn search_over(
    site: &Site,
    way: Way,
    start: u8,
    goal: &SlotSet,
    chain: &mut [u8],
    sets: &mut [[u8; SET_BYTES]],
) -> Ending
    requires chain_len { length chain.old ≡ chain_bytes }
    requires sets_len { 2 * set_slots ≤ length sets.old }
    ensures { Answer (site_of site.now) (meant way) (λ t. has goal.now t ≡ true) start result chain.new }
{
    let (layers, fronts) = sets.split_at_mut(SET_SLOTS);
    chain.fill(0);
    match measure(site, way, start, goal, layers, fronts) {
        Ending::Steps(n) => {
            descend(site, way, start, n, layers, chain);
            Ending::Steps(n)
        }
        Ending::Reached(set) => Ending::Reached(set),
    }
}

// The chain from the start to the slots of the goal, and its steps; or, where there is none, zeros, and the slots that can be reached.
pub fn search(
    site: &Site,
    way: Way,
    start: u8,
    goal: &SlotSet,
    chain: &mut [u8],
    work: &mut [u8],
) -> Ending
    requires chain_len { length chain.old ≡ chain_bytes }
    requires work_len { search_bytes ≤ length work.old }
    ensures answer { Answer (site_of site.now) (meant way) (λ t. has goal.now t ≡ true) start result chain.new }
    ensures work_after { work.new ≡ replicate (length work.old) 0 }
{
    let (sets, _) = work.as_chunks_mut::<SET_BYTES>();
    let ending = search_over(site, way, start, goal, chain, sets);
    work.fill(0);
    ending
}
