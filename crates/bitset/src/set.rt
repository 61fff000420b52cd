ghost use Rattle.std.specs.Prelude.{◌≡◌, true, false, not, ◌&&◌, ◌||◌, ℕ, ◌*◌, ◌^◌, ◌<◌, ◌≤◌, length, replicate, IfSome, IsNone, slice_index};
ghost use Rattle.finite.specs.Bytes.{Bytes};
ghost use Rattle.finite.specs.Tests.{any, all, count, first};
ghost use Rattle.finite.specs.Tests as tests;
ghost use Rattle.bitset.specs.Set.{has, Holds};

use crate::SET_WORDS;
use std::marker::Model;
use std::ops::{BitAnd, BitOr, Not, Sub};
use words::WORD_BYTES;

// A set of numbers below 64 * W, seen as its bytes, low byte first.
#[derive(Clone, Copy)]
pub struct BitSet<const W: usize> {
    words: [u64; W],
}

impl<const W: usize> Model for BitSet<W> {
    ghost use Rattle.std.specs.Prelude.{ℕ, List};
    ghost use Rattle.std.proofs.Common.{ap};
    ghost use Rattle.bitset.specs.Words.{bytes_of, words_of, Fit};
    ghost use Rattle.bitset.specs.Stored.{words_of-bytes_of};

    ghost Value = { List ℕ };

    ghost view = { λ s. bytes_of s.words };

    ghost invariant = { λ s. Fit W s.words };

    ghost inverse = { λ b. record { words = words_of W b } };

    ghost inverse_ok = { λ a h. ap (λ ws. record { words = ws }) (words_of-bytes_of W a.words h) };
}

// A set of slots.
pub type SlotSet = BitSet<SET_WORDS>;

impl<const W: usize> BitSet<W> {
    // The set of no number.
    pub fn empty() -> Self
        requires { 64 * W < 2 ^ 32 }
        ensures { Holds (64 * W) result (λ s. false) }
    {
        BitSet { words: [0; W] }
    }

    // The set of all numbers below 64 * W.
    pub fn full() -> Self
        requires { 64 * W < 2 ^ 32 }
        ensures { Holds (64 * W) result (λ s. true) }
    {
        BitSet {
            words: [u64::MAX; W],
        }
    }

    // The set of s alone.
    pub fn single(s: usize) -> Self
        requires small { 64 * W < 2 ^ 32 }
        requires within { s < 64 * W }
        ensures { Holds (64 * W) result (λ t. tests.same t s) }
    {
        let mut set = BitSet::empty();
        set.insert(s);
        set
    }

    // The set with these bytes.
    pub fn read(part: &[u8]) -> Self
        requires small { 64 * W < 2 ^ 32 }
        requires len { length part.now ≡ 8 * W }
        ensures bytes { result ≡ part.now }
        ensures small { Bytes result }
    {
        let mut words = [0; W];
        for k in 0..W {
            words[k] = words::get(part, WORD_BYTES * k);
        }
        BitSet { words }
    }

    // Writes the set's bytes.
    pub fn write(&self, part: &mut [u8])
        requires { length part.old ≡ 8 * W }
        ensures { part.new ≡ self.now }
    {
        for k in 0..W {
            words::put(part, WORD_BYTES * k, self.words[k]);
        }
    }

    // Is s in the set?
    pub fn contains(&self, s: usize) -> bool
        requires { s < 64 * W }
        ensures { result ≡ has self.now s }
    {
        (self.words[s / 64] >> (s % 64)) & 1 == 1
    }

    // Puts s in.
    pub fn insert(&mut self, s: usize)
        requires { s < 64 * W }
        ensures { Holds (64 * W) self.new (λ t. has self.old t || tests.same t s) }
    {
        self.words[s / 64] |= 1 << (s % 64);
    }

    // Takes s out.
    pub fn remove(&mut self, s: usize)
        requires { s < 64 * W }
        ensures { Holds (64 * W) self.new (λ t. has self.old t && not (tests.same t s)) }
    {
        self.words[s / 64] &= !(1 << (s % 64));
    }

    // How many numbers it has: the bits that are set.
    pub fn len(&self) -> u32
        ensures { result ≡ count (64 * W) (has self.now) }
    {
        let mut n = 0;
        for w in &self.words {
            n += w.count_ones();
        }
        n
    }

    // Has it no number?
    pub fn is_empty(&self) -> bool
        ensures { result ≡ not (any (64 * W) (has self.now)) }
    {
        self.lowest().is_none()
    }

    // The lowest number.
    pub fn lowest(&self) -> Option<usize>
        ensures some { IfSome result (λ s. (s < 64 * W) × (s ≡ first (64 * W) (has self.now))) }
        ensures none { IsNone result → any (64 * W) (has self.now) ≡ false }
    {
        for (k, w) in self.words.iter().enumerate() {
            if *w != 0 {
                return Some(64 * k + w.trailing_zeros() as usize);
            }
        }
        None
    }

    // Is every number of this set in the other? All words are looked at, with one test at the end.
    pub fn is_subset(&self, other: &Self) -> bool
        ensures { result ≡ all (64 * W) (λ s. not (has self.now s) || has other.now s) }
    {
        let mut outside = 0;
        for k in 0..W {
            outside |= self.words[k] & !other.words[k];
        }
        outside == 0
    }

    // Is some number in both? All words are looked at, with one test at the end.
    pub fn meets(&self, other: &Self) -> bool
        ensures { result ≡ any (64 * W) (λ s. has self.now s && has other.now s) }
    {
        let mut both = 0;
        for k in 0..W {
            both |= self.words[k] & other.words[k];
        }
        both != 0
    }
}

// Written out, since a derived one would promise what holds of the words, and callers see the bytes.
impl<const W: usize> PartialEq for BitSet<W> {
    ghost use Rattle.std.specs.Prelude.{nat_eq};
    ghost use Rattle.std.specs.Cmp.Lexicographic.{pointwise};
    ghost use Rattle.std.proofs.lemmas.Cmp.{nat_list_eq_equiv};
    ghost use Rattle.std.proofs.Common.{rules};
    ghost use Rattle.std.specs.Cmp.Rules.{comparing};

    ghost eq = { pointwise nat_eq };

    ghost laws = { Prim.search (comparing, rules) };

    fn eq(&self, other: &Self) -> bool {
        self.words == other.words
    }
}

impl<const W: usize> Eq for BitSet<W> {
    ghost use Rattle.std.proofs.Common.{rules};
    ghost use Rattle.std.specs.Cmp.Rules.{comparing};

    ghost laws = { Prim.search (comparing, rules) };
}

// What f makes of the words of two sets, pair by pair.
fn zip<const W: usize, F: Fn(u64, u64) -> u64>(a: &[u64; W], b: &[u64; W], f: F) -> [u64; W]
    requires { F.IsAlwaysCallable f }
    ensures { (k : ℕ) → k < W → F.post f (slice_index a.now k) (slice_index b.now k) (slice_index result k) }
{
    let mut words = [0; W];
    for k in 0..W {
        words[k] = f(a[k], b[k]);
    }
    words
}

impl<const W: usize> BitOr for BitSet<W> {
    ghost use Rattle.std.specs.Prelude.{◌≡◌, ◌||◌, ◌*◌, bit_or};
    ghost use Rattle.bitset.specs.Set.{has, Holds};

    type Output = Self;

    ghost bitor_gives = { λ a b c. Holds (64 * W) c (λ s. has a s || has b s) };

    fn bitor(self, other: Self) -> Self {
        BitSet {
            words: zip(
                &self.words,
                &other.words,
                |a, b| -> u64
                    ensures { result ≡ bit_or a b }
                { a | b },
            ),
        }
    }
}

impl<const W: usize> BitAnd for BitSet<W> {
    ghost use Rattle.std.specs.Prelude.{◌≡◌, ◌&&◌, ◌*◌, bit_and};
    ghost use Rattle.bitset.specs.Set.{has, Holds};

    type Output = Self;

    ghost bitand_gives = { λ a b c. Holds (64 * W) c (λ s. has a s && has b s) };

    fn bitand(self, other: Self) -> Self {
        BitSet {
            words: zip(
                &self.words,
                &other.words,
                |a, b| -> u64
                    ensures { result ≡ bit_and a b }
                { a & b },
            ),
        }
    }
}

impl<const W: usize> Sub for BitSet<W> {
    ghost use Rattle.std.specs.Prelude.{◌≡◌, ◌&&◌, not, ◌-◌, ◌*◌, ◌^◌, bit_and};
    ghost use Rattle.bitset.specs.Set.{has, Holds};

    type Output = Self;

    ghost sub_gives = { λ a b c. Holds (64 * W) c (λ s. has a s && not (has b s)) };

    fn sub(self, other: Self) -> Self {
        BitSet {
            words: zip(
                &self.words,
                &other.words,
                |a, b| -> u64
                    ensures { result ≡ bit_and a (2 ^ 64 - 1 - b) }
                { a & !b },
            ),
        }
    }
}

impl<const W: usize> Not for BitSet<W> {
    ghost use Rattle.std.specs.Prelude.{◌≡◌, not, ◌-◌, ◌*◌, ◌^◌};
    ghost use Rattle.bitset.specs.Set.{has, Holds};

    type Output = Self;

    ghost not_gives = { λ a c. Holds (64 * W) c (λ s. not (has a s)) };

    fn not(self) -> Self {
        BitSet {
            words: zip(
                &self.words,
                &self.words,
                |a, _| -> u64
                    ensures { result ≡ 2 ^ 64 - 1 - a }
                { !a },
            ),
        }
    }
}

// The numbers of a set, rising. Words are begun one by one; what is left of the last one is held by itself, so that it stays in a register.
#[derive(Clone, Copy)]
pub struct Numbers<const W: usize> {
    set: BitSet<W>,
    // How many words were begun.
    begun: usize,
    // What is left of the last of them.
    word: u64,
    ghost within: { begun ≤ W },
    ghost none_begun: { begun ≡ 0 → word ≡ 0 },
}

impl<const W: usize> IntoIterator for BitSet<W> {
    ghost use Rattle.std.specs.Prelude.{◌≡◌};
    ghost use Rattle.bitset.specs.Numbers.{numbers_left};

    type Item = usize;

    type IntoIter = Numbers<W>;

    ghost into_iter_gives = { λ s r. numbers_left r.set r.begun r.word ≡ s };

    fn into_iter(self) -> Numbers<W> {
        Numbers {
            set: self,
            begun: 0,
            word: 0,
        }
    }
}

impl<const W: usize> Numbers<W> {
    ghost use Rattle.std.specs.Prelude.{◌≢◌};
    ghost use Rattle.bitset.specs.Numbers.{numbers_left};

    // What is left of the last word, or else the next that has a number; and how many words are begun with it.
    fn current(&self) -> Option<(usize, u64)>
        ensures begun { IfSome result (λ p. (0 < p.0) × (p.0 ≤ W) × (p.1 ≢ 0) × (p.1 < 2 ^ 64)) }
        ensures same { IfSome result (λ p. Holds (64 * W) (numbers_left self.now.set p.0 p.1) (has (numbers_left self.now.set self.now.begun self.now.word))) }
        ensures none { IsNone result → any (64 * W) (has (numbers_left self.now.set self.now.begun self.now.word)) ≡ false }
    {
        if self.word != 0 {
            return Some((self.begun, self.word));
        }
        for k in self.begun..W {
            let word = self.set.words[k];
            if word != 0 {
                return Some((k + 1, word));
            }
        }
        return None;
    }
}

impl<const W: usize> Iterator for Numbers<W> {
    ghost use Rattle.std.specs.Prelude.{◌*◌};
    ghost use Rattle.std.specs.Iterator.{at_most};
    ghost use Rattle.finite.specs.Tests.{count};
    ghost use Rattle.bitset.specs.Set.{has, Next};
    ghost use Rattle.bitset.specs.Numbers.{numbers_left};

    type Item = usize;

    ghost next_gives = { λ s r t. Next (64 * W) (numbers_left s.set s.begun s.word) r (numbers_left t.set t.begun t.word) };

    ghost remaining = { λ s. at_most (count (64 * W) (has (numbers_left s.set s.begun s.word))) };

    fn next(&mut self) -> Option<usize> {
        let (begun, word) = self.current()?;
        self.begun = begun;
        self.word = word & (word - 1);
        Some(64 * (begun - 1) + word.trailing_zeros() as usize)
    }
}
