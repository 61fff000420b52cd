// When an edit goes through on a site: item 13, for one edit.
#![tactic(auto)]

ghost use Rattle.std.specs.Prelude.{◌≡◌, true};
ghost use Rattle.semantics.specs.Edit.{legal, goes};
ghost use Rattle.site.specs.Site.{site_of};
ghost use Rattle.site.specs.Ways.{link_number};
ghost use Rattle.sheet.specs.Bytes.{edit_of};
ghost use Rattle.going.specs.Joins.{ends_on_site, joins};

use limits::Below;
use sheet::Op;
use site::{Link, Site};

// Is neither end of a link nil?
#[tactic(auto, unfolding(finite::specs::Tests::same))]
fn ends_on_site(s: u8, t: u8) -> bool
    ensures { result ≡ ends_on_site s t }
{
    (s != 0) & (t != 0)
}

// Can the link be added from slot s to slot t?
fn can_join(site: &Site, link: Link, s: u8, t: u8) -> bool
    ensures { result ≡ joins (site_of site.now) (link_number link) s t }
{
    if !ends_on_site(s, t) {
        return false;
    }
    match link {
        Link::General(_) => true,
        Link::Functional(f) => match site.target(f, s) {
            Some(u) => u == t,
            None => true,
        },
    }
}

// The edit goes through on the site.
#[tactic(auto, using(crate::proofs::Laws::Ranges::ranges, crate::proofs::Laws::Goes::tests))]
pub fn goes_through(site: &Site, edit: Op) -> bool
    requires { legal (edit_of edit) ≡ true }
    ensures { result ≡ goes (edit_of edit) (site_of site.now) }
{
    match edit {
        Op::At(m, n1, n2) => {
            let s = site.place(Below::at(n1));
            let t = site.place(Below::at(n2));
            can_join(site, Link::at(m), s, t)
        }
        Op::As(_, k) => !site.present(k),
        Op::Ds(n) => site.place(Below::at(n)) != 0,
        Op::Rt(_, n1, n2) => {
            let s = site.place(Below::at(n1));
            let t = site.place(Below::at(n2));
            ends_on_site(s, t)
        }
        Op::Cn1(..) | Op::Cn2(..) | Op::Ap(..) | Op::Dp(..) | Op::Dt1(..) | Op::Dt2(..) => true,
    }
}
