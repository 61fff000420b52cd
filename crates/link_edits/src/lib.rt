// The edits of links on a site's bytes, in place.
#![tactic(auto)]

ghost use Rattle.std.specs.Prelude.{◌≡◌, true, ◌+◌};
ghost use Rattle.bitset.specs.Set.{set_slots};
ghost use Rattle.limits.specs.Limits.{general_links};
ghost use Rattle.semantics.specs.Edit.{AT, DT1, DT2, RT, edit, legal, goes};
ghost use Rattle.site.specs.Layout as layout;
ghost use Rattle.site.specs.Site.{site_of};
ghost use Rattle.site.specs.Ways.{link_number};
ghost use Rattle.going.specs.Joins.{joins};
ghost use Rattle.site_changes.specs.Change.{with_link, without_link, without_target, column_to, without_links_of, without_links};

use bitset::{SET_BYTES, SET_SLOTS};
use limits::{Below, GENERAL_LINKS, LINKS};
use site::{Link, ROWS_AT, ROWS_BYTES, SITE_BYTES, Site, TARGETS_AT};
use site_changes::unless;

// Where the target of slot s by the functional link f stands.
fn target_at(f: Below<4>, s: u8) -> usize
    ensures { result ≡ layout.target_at (general_links + f.number) s }
{
    TARGETS_AT + SET_SLOTS * f.index() + usize::from(s)
}

// Where the targets of slot s by the general link m start.
fn row_at(m: Below<4>, s: u8) -> usize
    ensures { result ≡ layout.row_at m.number s }
{
    ROWS_AT + ROWS_BYTES * m.index() + SET_BYTES * usize::from(s)
}

// The link, which can be added, leads from slot s to slot t.
fn put_link(site: &mut [u8; SITE_BYTES], link: Link, s: u8, t: u8)
    requires { joins (site_of site.old) (link_number link) s t ≡ true }
    ensures { site_of site.new ≡ with_link (site_of site.old) (link_number link) s t }
{
    match link {
        Link::General(m) => bitset::insert(site, row_at(m, s) * 8 + usize::from(t)),
        Link::Functional(f) => site[target_at(f, s)] = t,
    }
}

// The link does not lead from slot s to slot t. A target's byte is written in any case: without a branch the compiler takes many at a time.
fn take_link(site: &mut [u8; SITE_BYTES], link: Link, s: u8, t: u8)
    ensures { site_of site.new ≡ without_link (site_of site.old) (link_number link) s t }
{
    match link {
        Link::General(m) => bitset::remove(site, row_at(m, s) * 8 + usize::from(t)),
        Link::Functional(f) => {
            let at = target_at(f, s);
            site[at] = unless(site[at], t);
        }
    }
}

// The link leads from slot s nowhere.
fn take_row(site: &mut [u8; SITE_BYTES], link: Link, s: u8)
    ensures { site_of site.new ≡ without_target (site_of site.old) (link_number link) s }
{
    match link {
        Link::General(m) => {
            let at = row_at(m, s);
            site[at..at + SET_BYTES].fill(0);
        }
        Link::Functional(f) => site[target_at(f, s)] = 0,
    }
}

// The link leads to slot s from nowhere.
fn take_column(site: &mut [u8; SITE_BYTES], link: Link, s: u8)
    ensures { site_of site.new ≡ column_to (site_of site.old) (link_number link) s set_slots }
{
    for t in 0..=u8::MAX {
        take_link(site, link, t, s);
    }
}

// The link leads neither from slot s nor to it.
fn take_row_and_column(site: &mut [u8; SITE_BYTES], link: Link, s: u8)
    ensures { site_of site.new ≡ without_links_of (site_of site.old) (link_number link) s }
{
    take_column(site, link, s);
    take_row(site, link, s);
}

// No link leads from slot s or to it.
pub fn take_links(site: &mut [u8; SITE_BYTES], s: u8)
    ensures { site_of site.new ≡ without_links (site_of site.old) s }
{
    for m in 0..LINKS {
        take_row_and_column(site, Link::at(m), s);
    }
}

// AT, where it goes through: link m is added from name n1 to name n2.
#[tactic(auto, using(going::proofs::Laws::Goes::tests, site_changes::proofs::Laws::Rows::edit_changes))]
pub fn add_link(site: &mut [u8; SITE_BYTES], m: u8, n1: u8, n2: u8)
    requires legal { legal (AT m n1 n2) ≡ true }
    requires goes { goes (AT m n1 n2) (site_of site.old) ≡ true }
    ensures { site_of site.new ≡ edit (AT m n1 n2) (site_of site.old) }
{
    let before = Site::from(&*site);
    let s = before.place(Below::at(n1));
    let t = before.place(Below::at(n2));
    put_link(site, Link::at(m), s, t);
}

// DT1: link m is deleted from name n1 to name n2.
#[tactic(auto, using(site_changes::proofs::Laws::Rows::edit_changes))]
pub fn delete_link(site: &mut [u8; SITE_BYTES], m: u8, n1: u8, n2: u8)
    requires { legal (DT1 m n1 n2) ≡ true }
    ensures { site_of site.new ≡ edit (DT1 m n1 n2) (site_of site.old) }
{
    let before = Site::from(&*site);
    let s = before.place(Below::at(n1));
    let t = before.place(Below::at(n2));
    take_link(site, Link::at(m), s, t);
}

// DT2: the functional link f is deleted from name n.
#[tactic(auto, using(site_changes::proofs::Laws::Rows::edit_changes))]
pub fn delete_target(site: &mut [u8; SITE_BYTES], f: u8, n: u8)
    requires { legal (DT2 f n) ≡ true }
    ensures { site_of site.new ≡ edit (DT2 f n) (site_of site.old) }
{
    let s = Site::from(&*site).place(Below::at(n));
    take_row(site, Link::at(f), s);
}

// RT, where it goes through: the functional link f leads from name n1 to name n2, wherever it led before.
#[tactic(auto, using(site_changes::proofs::Laws::Rows::edit_changes))]
pub fn replace_target(site: &mut [u8; SITE_BYTES], f: u8, n1: u8, n2: u8)
    requires legal { legal (RT f n1 n2) ≡ true }
    requires goes { goes (RT f n1 n2) (site_of site.old) ≡ true }
    ensures { site_of site.new ≡ edit (RT f n1 n2) (site_of site.old) }
{
    let before = Site::from(&*site);
    let s = before.place(Below::at(n1));
    let t = before.place(Below::at(n2));
    site[target_at(Below::at(f - GENERAL_LINKS), s)] = t;
}
