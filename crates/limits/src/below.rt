ghost use Rattle.std.specs.Prelude.{◌≡◌, ◌↔◌, ◌<◌, IfSome, IsSome};

// A number below N.
#[derive(Clone, Copy, PartialEq, Eq, Debug)]
pub struct Below<const N: u8> {
    pub number: u8,
    pub ghost within: { number < N },
}

impl<const N: u8> Below<N> {
    pub fn new(number: u8) -> Option<Self>
        ensures some { IfSome result (λ b. b.number ≡ number) }
        ensures within { IsSome result ↔ number < N }
    {
        if number < N {
            Some(Below { number })
        } else {
            None
        }
    }

    // A number that is known to be below N.
    pub fn at(number: u8) -> Self
        requires { number < N }
        ensures { result.number ≡ number }
    {
        Below { number }
    }

    // As an index.
    pub fn index(self) -> usize
        ensures { result ≡ self.entry.number }
    {
        usize::from(self.number)
    }
}
