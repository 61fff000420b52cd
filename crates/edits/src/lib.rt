// The edits on a site's bytes, in place: those of names, labels and slots, and the choice among all.
#![tactic(auto)]

ghost use Rattle.std.specs.Prelude.{◌≡◌, true, ◌+◌, ◌*◌};
ghost use Rattle.semantics.specs.Edit.{CN1, CN2, AP, DP, AS, DS, legal, goes};
ghost use Rattle.semantics.specs.Edit as effect;
ghost use Rattle.site.specs.Layout.{label_at};
ghost use Rattle.site.specs.Site.{site_of};
ghost use Rattle.sheet.specs.Bytes.{edit_of};
ghost use Rattle.site_changes.specs.Change.{with_name, with_slot, without_slot, with_label, without_label, without_name, without_labels, without_names};

use bitset::SET_BYTES;
use limits::{Below, GENERAL_LINKS, LABELS, NAMES};
use sheet::Op;
use site::{LABELS_AT, NAMES_AT, SITE_BYTES, Site};
use site_changes::unless;

// Name n is at slot s.
fn put_name(site: &mut [u8; SITE_BYTES], n: Below<48>, s: u8)
    ensures { site_of site.new ≡ with_name (site_of site.old) n.number s }
{
    site[NAMES_AT + n.index()] = s;
}

// Slot s is present.
fn put_slot(site: &mut [u8; SITE_BYTES], s: u8)
    ensures { site_of site.new ≡ with_slot (site_of site.old) s }
{
    bitset::insert(site, usize::from(s));
}

// Slot s is absent.
fn take_slot(site: &mut [u8; SITE_BYTES], s: u8)
    ensures { site_of site.new ≡ without_slot (site_of site.old) s }
{
    bitset::remove(site, usize::from(s));
}

// Which bit says whether label p is on slot s.
fn label_bit(p: Below<16>, s: u8) -> usize
    ensures { result ≡ label_at p.number * 8 + s }
{
    (LABELS_AT + SET_BYTES * p.index()) * 8 + usize::from(s)
}

// Label p is on slot s.
fn put_label(site: &mut [u8; SITE_BYTES], p: Below<16>, s: u8)
    ensures { site_of site.new ≡ with_label (site_of site.old) p.number s }
{
    bitset::insert(site, label_bit(p, s));
}

// Label p is not on slot s.
fn take_label(site: &mut [u8; SITE_BYTES], p: Below<16>, s: u8)
    ensures { site_of site.new ≡ without_label (site_of site.old) p.number s }
{
    bitset::remove(site, label_bit(p, s));
}

// No label is on slot s.
fn take_labels(site: &mut [u8; SITE_BYTES], s: u8)
    ensures { site_of site.new ≡ without_labels (site_of site.old) s }
{
    for p in 0..LABELS {
        take_label(site, Below::at(p), s);
    }
}

// Name n is at nil where it was at slot s. Its byte is written in any case: without a branch the compiler takes many names at a time.
fn take_name(site: &mut [u8; SITE_BYTES], n: Below<48>, s: u8)
    ensures { site_of site.new ≡ without_name (site_of site.old) n.number s }
{
    let p = Site::from(&*site).place(n);
    put_name(site, n, unless(p, s));
}

// Names at slot s are at nil.
fn take_names(site: &mut [u8; SITE_BYTES], s: u8)
    ensures { site_of site.new ≡ without_names (site_of site.old) s }
{
    for n in 0..NAMES {
        take_name(site, Below::at(n), s);
    }
}

// CN1: name n1 moves to where name n2 is.
#[tactic(auto, using(site_changes::proofs::Laws::Rows::edit_changes))]
fn move_to_name(site: &mut [u8; SITE_BYTES], n1: u8, n2: u8)
    requires { legal (CN1 n1 n2) ≡ true }
    ensures { site_of site.new ≡ effect.edit (CN1 n1 n2) (site_of site.old) }
{
    let s = Site::from(&*site).place(Below::at(n2));
    put_name(site, Below::at(n1), s);
}

// CN2: name n1 moves to where the functional link f leads from name n2, and to nil where it leads nowhere.
#[tactic(auto, using(site_changes::proofs::Laws::Rows::edit_changes))]
fn move_to_target(site: &mut [u8; SITE_BYTES], n1: u8, n2: u8, f: u8)
    requires { legal (CN2 n1 n2 f) ≡ true }
    ensures { site_of site.new ≡ effect.edit (CN2 n1 n2 f) (site_of site.old) }
{
    let before = Site::from(&*site);
    let from = before.place(Below::at(n2));
    let target = before.target(Below::at(f - GENERAL_LINKS), from);
    put_name(site, Below::at(n1), target.unwrap_or(0));
}

// AP: label p is put where name n is. Nil gets no label.
#[tactic(auto, using(site_changes::proofs::Laws::Rows::edit_changes))]
fn add_label(site: &mut [u8; SITE_BYTES], n: u8, p: u8)
    requires { legal (AP n p) ≡ true }
    ensures { site_of site.new ≡ effect.edit (AP n p) (site_of site.old) }
{
    let s = Site::from(&*site).place(Below::at(n));
    if s != 0 {
        put_label(site, Below::at(p), s);
    }
}

// DP: label p is taken from where name n is.
#[tactic(auto, using(site_changes::proofs::Laws::Rows::edit_changes))]
fn delete_label(site: &mut [u8; SITE_BYTES], n: u8, p: u8)
    requires { legal (DP n p) ≡ true }
    ensures { site_of site.new ≡ effect.edit (DP n p) (site_of site.old) }
{
    let s = Site::from(&*site).place(Below::at(n));
    take_label(site, Below::at(p), s);
}

// AS: slot k is added, and name n moves there.
#[tactic(auto, using(site_changes::proofs::Laws::Rows::edit_changes))]
fn add_slot(site: &mut [u8; SITE_BYTES], n: u8, k: u8)
    requires { legal (AS n k) ≡ true }
    ensures { site_of site.new ≡ effect.edit (AS n k) (site_of site.old) }
{
    put_slot(site, k);
    put_name(site, Below::at(n), k);
}

// DS: the slot goes, with its labels, names and links.
#[tactic(auto, using(site_changes::proofs::Laws::Rows::edit_changes))]
fn delete_slot(site: &mut [u8; SITE_BYTES], n: u8)
    requires { legal (DS n) ≡ true }
    ensures { site_of site.new ≡ effect.edit (DS n) (site_of site.old) }
{
    let s = Site::from(&*site).place(Below::at(n));
    take_slot(site, s);
    take_labels(site, s);
    take_names(site, s);
    link_edits::take_links(site, s);
}

// The edit, where it goes through.
pub fn apply_edit(site: &mut [u8; SITE_BYTES], edit: Op)
    requires legal { legal (edit_of edit) ≡ true }
    requires goes { goes (edit_of edit) (site_of site.old) ≡ true }
    ensures { site_of site.new ≡ effect.edit (edit_of edit) (site_of site.old) }
{
    match edit {
        Op::Cn1(n1, n2) => move_to_name(site, n1, n2),
        Op::Cn2(n1, n2, f) => move_to_target(site, n1, n2, f),
        Op::Ap(n, p) => add_label(site, n, p),
        Op::Dp(n, p) => delete_label(site, n, p),
        Op::At(m, n1, n2) => link_edits::add_link(site, m, n1, n2),
        Op::Dt1(m, n1, n2) => link_edits::delete_link(site, m, n1, n2),
        Op::Dt2(f, n) => link_edits::delete_target(site, f, n),
        Op::As(n, k) => add_slot(site, n, k),
        Op::Ds(n) => delete_slot(site, n),
        Op::Rt(f, n1, n2) => link_edits::replace_target(site, f, n1, n2),
    }
}
