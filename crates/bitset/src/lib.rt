// Sets of numbers below a bound, 64 to a word; a set of the 256 slots has four words. Its bytes are 32, as they stand in a site or a list.
// `member`, `insert` and `remove` take the bytes of any buffer, and the number by its bit's address.
#![tactic(auto)]

mod set;

ghost use Rattle.std.specs.Prelude.{◌≡◌, ◌/◌, ◌<◌, length};
ghost use Rattle.bitset.specs.Set.{has, inserted, removed};

pub use set::{BitSet, Numbers, SlotSet};
use words::WORD_BYTES;

pub const SET_BYTES: usize = 32;

pub const SET_WORDS: usize = SET_BYTES / WORD_BYTES;

pub const SET_SLOTS: usize = 256;

// Is slot s in the set?
pub fn member(set: &[u8], s: usize) -> bool
    requires { s / 8 < length set.now }
    ensures { result ≡ has set.now s }
{
    (set[s / 8] >> (s % 8)) & 1 == 1
}

// Puts slot s in.
pub fn insert(set: &mut [u8], s: usize)
    requires { s / 8 < length set.old }
    ensures { set.new ≡ inserted set.old s }
{
    set[s / 8] |= 1 << (s % 8);
}

// Takes slot s out.
pub fn remove(set: &mut [u8], s: usize)
    requires { s / 8 < length set.old }
    ensures { set.new ≡ removed set.old s }
{
    set[s / 8] &= !(1 << (s % 8));
}
