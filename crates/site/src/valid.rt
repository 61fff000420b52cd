ghost use Rattle.std.specs.Prelude.{◌≡◌, IfOk, not, ◌+◌, ◌*◌, ◌≤◌, ◌<◌, get_or};
ghost use Rattle.finite.specs.Bytes.{Bytes};
ghost use Rattle.finite.specs.Tests.{all};
ghost use Rattle.bitset.specs.Set.{set_bytes, set_slots};
ghost use Rattle.limits.specs.Limits.{names, general_links};
ghost use Rattle.verdict.specs.Verdict.{outcome};
ghost use Rattle.site.specs.Layout.{site_bytes, target_at, row_at};
ghost use Rattle.site.specs.Site.{site_of};
ghost use Rattle.site.specs.Refusal.{item4, item5, item6, touches, site_verdict};
ghost use Rattle.site.specs.Inside.{OnSite, inside, row_inside, target_inside};
ghost use Rattle.site.specs.Ways.{link_number};

use crate::{LABELS_AT, Link, ROWS_AT, ROWS_BYTES, Site, TARGETS_AT};
use bitset::{SET_BYTES, SET_SLOTS, SlotSet};
use limits::{Below, LABELS, LINKS, NAMES};
use verdict::Refusal;

// Is every name at a present slot?
fn names_present(site: &Site) -> bool
    ensures { result ≡ all names (λ n. (site_of site.now).present ((site_of site.now).place n)) }
{
    for n in 0..NAMES {
        if !site.present(site.place(Below::at(n))) {
            return false;
        }
    }
    true
}

// Item 4 is not met: slot 0 is present, name 0 is there, and every name is at a present slot.
fn names_fit(site: &Site) -> bool
    ensures { result ≡ not (item4 (site_of site.now)) }
{
    if !site.present(0) {
        return false;
    }
    if site.place(Below::at(0)) != 0 {
        return false;
    }
    names_present(site)
}

// Does the set at byte b lie inside `set`?
fn part_inside(site: &Site, b: usize, set: &SlotSet) -> bool
    requires { b + set_bytes ≤ site_bytes }
    ensures { result ≡ inside site.now b set.now }
{
    site.set_at(b).is_subset(set)
}

// The slots that labels and links may be at: those present, but for slot 0.
fn onsite_slots(site: &Site) -> SlotSet
    ensures { OnSite site.now result }
{
    let mut onsite = site.present_slots();
    onsite.remove(0);
    onsite
}

// Item 5 is not met: each label's set lies inside `onsite`.
fn labels_fit(site: &Site, onsite: &SlotSet) -> bool
    requires { OnSite site.now onsite.now }
    ensures { result ≡ not (item5 (site_of site.now)) }
{
    for p in 0..LABELS {
        if !part_inside(site, LABELS_AT + SET_BYTES * usize::from(p), onsite) {
            return false;
        }
    }
    true
}

// Does the set at byte b, the targets of slot s, lie inside `onsite`, and is it empty where s is not in `onsite`?
fn row_fits(site: &Site, b: usize, s: usize, onsite: &SlotSet) -> bool
    requires { (b + set_bytes ≤ site_bytes) × (s < set_slots) }
    ensures { result ≡ row_inside site.now b onsite.now s }
{
    if onsite.contains(s) {
        return part_inside(site, b, onsite);
    }
    site.set_at(b).is_empty()
}

// Does every row of the general link m fit? Its targets are in `onsite`, and it is empty where its slot is not.
fn rows_fit(site: &Site, m: Below<4>, onsite: &SlotSet) -> bool
    ensures { result ≡ all set_slots (λ s. row_inside site.now (row_at m.number s) onsite.now s) }
{
    let rows = ROWS_AT + ROWS_BYTES * m.index();
    for s in 0..SET_SLOTS {
        if !row_fits(site, rows + SET_BYTES * s, s, onsite) {
            return false;
        }
    }
    true
}

// Is the target of slot s none, or are both in `onsite`?
fn target_fits(site: &Site, f: Below<4>, s: u8, onsite: &SlotSet) -> bool
    ensures { result ≡ target_inside onsite.now s (get_or site.now (target_at (general_links + f.number) s) 0) }
{
    match site.target(f, s) {
        Some(t) => onsite.contains(usize::from(s)) && onsite.contains(usize::from(t)),
        None => true,
    }
}

// Do the targets of the 32 slots from 32 * k on fit, by the functional link f? If all of them are none, one look tells.
fn targets_fit_from(site: &Site, f: Below<4>, k: usize, onsite: &SlotSet) -> bool
    requires { set_bytes * k < set_slots }
    ensures { result ≡ all set_bytes (λ j. target_inside onsite.now (set_bytes * k + j) (get_or site.now (target_at (general_links + f.number) (set_bytes * k + j)) 0)) }
{
    let b = TARGETS_AT + SET_SLOTS * f.index() + SET_BYTES * k;
    if site.set_at(b).is_empty() {
        return true;
    }
    for j in 0..SET_BYTES {
        if !target_fits(site, f, (SET_BYTES * k + j) as u8, onsite) {
            return false;
        }
    }
    true
}

// Does every target of the functional link f fit? It is none, or both ends of the link are in `onsite`.
fn targets_fit(site: &Site, f: Below<4>, onsite: &SlotSet) -> bool
    ensures { result ≡ all set_slots (λ s. target_inside onsite.now s (get_or site.now (target_at (general_links + f.number) s) 0)) }
{
    for k in 0..SET_SLOTS / SET_BYTES {
        if !targets_fit_from(site, f, k, onsite) {
            return false;
        }
    }
    true
}

// Does the link touch the slots of `onsite` alone?
fn link_fits(site: &Site, link: Link, onsite: &SlotSet) -> bool
    requires onsite { OnSite site.now onsite.now }
    requires bytes { Bytes site.now }
    ensures { result ≡ not (touches (site_of site.now) (link_number link)) }
{
    match link {
        Link::General(m) => rows_fit(site, m, onsite),
        Link::Functional(f) => targets_fit(site, f, onsite),
    }
}

// Item 6 is not met: each link touches the slots of `onsite` alone.
fn links_fit(site: &Site, onsite: &SlotSet) -> bool
    requires onsite { OnSite site.now onsite.now }
    requires bytes { Bytes site.now }
    ensures { result ≡ not (item6 (site_of site.now)) }
{
    for m in 0..LINKS {
        if !link_fits(site, Link::at(m), onsite) {
            return false;
        }
    }
    true
}

// The site in these bytes, or the first of items 3 to 6 that they meet.
pub fn read(bytes: &[u8]) -> Result<Site<'_>, Refusal>
    ensures site { IfOk result (λ s. s ≡ bytes.now) }
    ensures verdict { outcome result ≡ site_verdict bytes.now }
{
    let Some(site) = Site::new(bytes) else {
        return Err(Refusal::SiteLength);
    };
    if !names_fit(&site) {
        return Err(Refusal::Names);
    }
    let onsite = onsite_slots(&site);
    if !labels_fit(&site, &onsite) {
        return Err(Refusal::Labels);
    }
    if !links_fit(&site, &onsite) {
        return Err(Refusal::Links);
    }
    Ok(site)
}

// The first of items 3 to 6 that the bytes meet.
pub fn check(bytes: &[u8]) -> Result<(), Refusal>
    ensures { result ≡ site_verdict bytes.now }
{
    read(bytes)?;
    Ok(())
}
