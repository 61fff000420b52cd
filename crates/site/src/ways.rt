use limits::{Below, GENERAL_LINKS, LINKS};

// A link by its number among those of its kind: a general one has any number of targets, a functional one at most one.
#[derive(Clone, Copy, PartialEq, Eq, Debug)]
pub enum Link {
    General(Below<4>),
    Functional(Below<4>),
}

impl Link {
    ghost use Rattle.std.specs.Prelude.{◌≡◌, ◌↔◌, ◌<◌, IfSome, IsSome};
    ghost use Rattle.limits.specs.Limits.{links};
    ghost use Rattle.site.specs.Ways.{link_number};

    // The link with this number among all.
    pub fn new(number: u8) -> Option<Link>
        ensures some { IfSome result (λ l. link_number l ≡ number) }
        ensures within { IsSome result ↔ number < links }
    {
        if number < LINKS {
            Some(Link::at(number))
        } else {
            None
        }
    }

    // The link with a number that is known to be one.
    pub fn at(number: u8) -> Link
        requires { number < links }
        ensures { link_number result ≡ number }
    {
        if number < GENERAL_LINKS {
            Link::General(Below::at(number))
        } else {
            Link::Functional(Below::at(number - GENERAL_LINKS))
        }
    }
}

// What leads from slot to slot: a link, its reverse, or what leads everywhere.
#[derive(Clone, Copy, PartialEq, Eq, Debug)]
pub enum Way {
    Along(Link),
    Against(Link),
    Everywhere,
}

impl From<u8> for Way {
    ghost use Rattle.std.specs.Prelude.{◌≡◌};
    ghost use Rattle.semantics.specs.Table.{way_of};
    ghost use Rattle.site.specs.Ways.{meant};

    ghost from_gives = { λ number way. meant way ≡ way_of number };

    // The way with this number: the links come first, then their reverses; any other number is what leads everywhere.
    fn from(number: u8) -> Way {
        if let Some(link) = Link::new(number) {
            return Way::Along(link);
        }
        match Link::new(number - LINKS) {
            Some(link) => Way::Against(link),
            None => Way::Everywhere,
        }
    }
}
