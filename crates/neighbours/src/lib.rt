// The neighbours of each slot by the ways 0 to 15, as rows: read off a site once, before the rounds of refinement.
#![tactic(auto)]

ghost use Rattle.std.specs.Prelude.{◌≡◌, true, false, not, ◌&&◌, cond, ℕ, ◌<◌};
ghost use Rattle.finite.specs.Tests.{any};
ghost use Rattle.bitset.specs.Set.{set_slots, has, Is};
ghost use Rattle.limits.specs.Limits.{every_way};
ghost use Rattle.site.specs.Site.{site_of};
ghost use Rattle.site.specs.Ways.{link_number};
ghost use Rattle.partition.specs.Rows.{in_row, RowsOf, by_way, Neighbours, Used};

use bitset::{SET_SLOTS, SlotSet};
use partition::Rows;
use site::{LINKS, Link, Site};

// The links and their reverses.
pub const WAYS: usize = 2 * LINKS;

// The rows of each way.
pub type Ways = [Rows; WAYS];

// Puts the targets of each slot by the link into its row; returns all of them.
fn put_targets(site: &Site, link: Link, rows: &mut Rows) -> SlotSet
    ensures rows { RowsOf ((site_of site.now).link (link_number link)) rows.new }
    ensures reached { Is result (λ t. any set_slots (λ s. (site_of site.now).link (link_number link) s t)) }
{
    let mut reached = SlotSet::empty();
    for s in 0..SET_SLOTS {
        let targets = site.targets(link, s as u8);
        reached = reached | targets;
        rows[s] = targets;
    }
    reached
}

// Puts each slot into the rows of its targets; but one whose row has most of the reached slots, into those of the others. Returns the latter.
fn put_sources(rows: &Rows, reached: SlotSet, back: &mut Rows) -> SlotSet
    requires reached { (s t : ℕ) → s < set_slots → t < set_slots → in_row rows.now s t ≡ true → has reached t ≡ true }
    requires empty { RowsOf (λ s t. false) back.old }
    ensures { RowsOf (λ s t. cond (has result t && has reached s) (not (in_row rows.now t s)) (in_row rows.now t s)) back.new }
{
    let half = reached.len() / 2;
    let mut dense = SlotSet::empty();
    for s in 0..SET_SLOTS {
        let row = rows[s];
        if row.len() > half {
            dense.insert(s);
            partition::put(back, reached - row, s);
        } else {
            partition::put(back, row, s);
        }
    }
    dense
}

// Turns the rows round: slot t comes into row s where s was in row t.
fn reverse(rows: &Rows, reached: SlotSet, back: &mut Rows)
    requires reached { (s t : ℕ) → s < set_slots → t < set_slots → in_row rows.now s t ≡ true → has reached t ≡ true }
    requires empty { RowsOf (λ s t. false) back.old }
    ensures { RowsOf (λ s t. in_row rows.now t s) back.new }
{
    let dense = put_sources(rows, reached, back);
    for t in reached {
        let row = back[t];
        back[t] = (row - dense) | (dense - row);
    }
}

// Puts the targets by the link into the rows ahead, and the slots that they are reached from into those back. Does the link lead anywhere?
fn join(site: &Site, link: Link, ahead: &mut Rows, back: &mut Rows) -> bool
    requires { RowsOf (λ s t. false) back.old }
    ensures along { RowsOf ((site_of site.now).link (link_number link)) ahead.new }
    ensures against { RowsOf (λ s t. (site_of site.now).link (link_number link) t s) back.new }
    ensures used { result ≡ any set_slots (λ t. any set_slots (λ s. (site_of site.now).link (link_number link) s t)) }
{
    let reached = put_targets(site, link, ahead);
    if reached.is_empty() {
        return false;
    }
    reverse(ahead, reached, back);
    true
}

// Puts the neighbours by each way into rows that are empty, and says which ways lead anywhere.
pub fn of_site(site: &Site, ways: &mut Ways) -> [bool; WAYS]
    requires { (w s t : ℕ) → w < every_way → s < set_slots → t < set_slots → by_way ways.old w s t ≡ false }
    ensures neighbours { Neighbours (site_of site.now) ways.new }
    ensures used { Used ways.new result }
{
    let mut used = [false; WAYS];
    let (ahead, back) = ways.split_at_mut(LINKS);
    for m in 0..LINKS {
        let leads = join(site, Link::at(m as u8), &mut ahead[m], &mut back[m]);
        used[m] = leads;
        used[m + LINKS] = leads;
    }
    used
}
