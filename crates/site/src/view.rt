ghost use Rattle.std.specs.Prelude.{ℕ, ◌≡◌, ◌≢◌, ◌↔◌, ◌&&◌, ◌+◌, ◌*◌, ◌≤◌, ◌<◌, length, get_or, IfSome, IsSome};
ghost use Rattle.finite.specs.Tests.{any};
ghost use Rattle.bitset.specs.Set.{set_bytes, has, Is};
ghost use Rattle.limits.specs.Limits.{slots, general_links};
ghost use Rattle.semantics.specs.Edit as edits;
ghost use Rattle.site.specs.Layout.{site_bytes, target_at};
ghost use Rattle.site.specs.Site.{site_of, or_nil};

use crate::{LABELS_AT, NAMES_AT, ROWS_AT, ROWS_BYTES, SITE_BYTES, TARGETS_AT};
use bitset::{SET_BYTES, SET_SLOTS, SlotSet};
use limits::Below;
use std::marker::Model;

// A site, read in place; seen as its bytes.
#[derive(Drop)]
pub struct Site<'a> {
    bytes: &'a [u8; SITE_BYTES],
}

impl<'a> Model for Site<'a> {
    ghost use Rattle.std.specs.Prelude.{List, ℕ};

    ghost Value = { List ℕ };

    ghost view = { λ s. s.bytes.now };
}

impl<'a> From<&'a [u8; SITE_BYTES]> for Site<'a> {
    ghost from_gives = { λ bytes site. site ≡ bytes.now };

    fn from(bytes: &'a [u8; SITE_BYTES]) -> Self {
        Site { bytes }
    }
}

impl<'a> Site<'a> {
    // The site of these bytes, if there are as many as a site has.
    pub fn new(bytes: &'a [u8]) -> Option<Site<'a>>
        ensures some { IfSome result (λ site. site ≡ bytes.now) }
        ensures sized { IsSome result ↔ length bytes.now ≡ site_bytes }
    {
        let bytes = bytes.as_array::<SITE_BYTES>()?;
        Some(Site { bytes })
    }

    pub fn bytes(&self) -> &'a [u8; SITE_BYTES]
        ensures { result.now ≡ self.now }
    {
        self.bytes
    }

    fn byte(&self, at: usize) -> u8
        requires { at < site_bytes }
        ensures { result ≡ get_or self.now at 0 }
    {
        self.bytes[at]
    }

    // The set that starts at byte `at`.
    pub fn set_at(&self, at: usize) -> SlotSet
        requires { at + set_bytes ≤ site_bytes }
        ensures set { Is result (λ t. has self.now (at * 8 + t)) }
        ensures bytes { (k : ℕ) → k < set_bytes → get_or self.now (at + k) 0 < 256 }
    {
        let bytes = self.bytes;
        SlotSet::read(&bytes[at..at + SET_BYTES])
    }

    // Is slot s present?
    pub fn present(&self, s: u8) -> bool
        ensures { result ≡ (site_of self.now).present s }
    {
        let bytes = self.bytes;
        bitset::member(bytes, usize::from(s))
    }

    // The slots that are present.
    pub fn present_slots(&self) -> SlotSet
        ensures { Is result (site_of self.now).present }
    {
        self.set_at(0)
    }

    // Is label p on slot s?
    pub fn has_label(&self, p: Below<16>, s: u8) -> bool
        ensures { result ≡ (site_of self.now).marked p.number s }
    {
        let bytes = self.bytes;
        bitset::member(
            bytes,
            (LABELS_AT + SET_BYTES * p.index()) * 8 + usize::from(s),
        )
    }

    // The slots with label p.
    pub fn labelled(&self, p: Below<16>) -> SlotSet
        ensures { Is result ((site_of self.now).marked p.number) }
    {
        self.set_at(LABELS_AT + SET_BYTES * p.index())
    }

    // The slot of name n.
    pub fn place(&self, n: Below<48>) -> u8
        ensures { result ≡ (site_of self.now).place n.number }
    {
        self.byte(NAMES_AT + n.index())
    }

    // The target of slot s by the functional link f.
    pub fn target(&self, f: Below<4>, s: u8) -> Option<u8>
        ensures slot { or_nil result ≡ edits.target (site_of self.now) (general_links + f.number) s }
        ensures byte { or_nil result ≡ get_or self.now (target_at (general_links + f.number) s) 0 }
        ensures some { IfSome result (λ t. t ≢ 0) }
    {
        match self.byte(TARGETS_AT + SET_SLOTS * f.index() + usize::from(s)) {
            0 => None,
            t => Some(t),
        }
    }

    // The targets of slot s by the general link m.
    pub fn row(&self, m: Below<4>, s: u8) -> SlotSet
        ensures { Is result ((site_of self.now).link m.number s) }
    {
        self.set_at(ROWS_AT + ROWS_BYTES * m.index() + SET_BYTES * usize::from(s))
    }
}
