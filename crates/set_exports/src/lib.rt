// The operations on sets for C, so that the benchmark can time each by itself. Nothing is required: bytes of any other length than a set's are
// left as they are, equal to none, and counted as 0.
#![tactic(auto)]

ghost use Rattle.std.specs.Prelude.{◌≡◌, true, false, not, ◌&&◌, ◌||◌};
ghost use Rattle.finite.specs.Tests as tests;
ghost use Rattle.bitset.specs.Set.{set_slots, has, Is};
ghost use Rattle.set_exports.specs.Length.{IfSet};

use bitset::{SET_BYTES, SlotSet};

// The slots of either set, into `dst`.
#[tactic(auto, using(crate::proofs::Laws::Length::is_set, crate::proofs::Laws::Length::not_set))]
#[unsafe(no_mangle)]
pub extern "C" fn set_union(dst: &mut [u8], src: &[u8])
    ensures { IfSet dst.old (IfSet src.now (Is dst.new (λ s. has dst.old s || has src.now s)) (dst.new ≡ dst.old)) (dst.new ≡ dst.old) }
{
    if dst.len() != SET_BYTES {
        return;
    }
    if src.len() != SET_BYTES {
        return;
    }
    (SlotSet::read(dst) | SlotSet::read(src)).write(dst)
}

// The slots of both sets; `into` gets them.
#[tactic(auto, using(crate::proofs::Laws::Length::is_set, crate::proofs::Laws::Length::not_set))]
#[unsafe(no_mangle)]
pub extern "C" fn set_meet(into: &mut [u8], other: &[u8])
    ensures { IfSet into.old (IfSet other.now (Is into.new (λ s. has into.old s && has other.now s)) (into.new ≡ into.old)) (into.new ≡ into.old) }
{
    if into.len() != SET_BYTES {
        return;
    }
    if other.len() != SET_BYTES {
        return;
    }
    (SlotSet::read(into) & SlotSet::read(other)).write(into)
}

// The slots that were not in the set.
#[tactic(auto, using(crate::proofs::Laws::Length::is_set, crate::proofs::Laws::Length::not_set))]
#[unsafe(no_mangle)]
pub extern "C" fn set_complement(slots: &mut [u8])
    ensures { IfSet slots.old (Is slots.new (λ s. not (has slots.old s))) (slots.new ≡ slots.old) }
{
    if slots.len() != SET_BYTES {
        return;
    }
    (!SlotSet::read(slots)).write(slots)
}

// Do the two sets have the same slots?
#[tactic(auto, using(crate::proofs::Laws::Length::is_set, crate::proofs::Laws::Length::not_set))]
#[unsafe(no_mangle)]
pub extern "C" fn set_equal(a: &[u8], b: &[u8]) -> bool
    ensures { IfSet a.now (IfSet b.now ((result ≡ true → a.now ≡ b.now) × (result ≡ false → a.now ≡ b.now → ⊥)) (result ≡ false)) (result ≡ false) }
{
    if a.len() != SET_BYTES {
        return false;
    }
    if b.len() != SET_BYTES {
        return false;
    }
    SlotSet::read(a) == SlotSet::read(b)
}

// How many slots the set holds.
#[tactic(auto, using(crate::proofs::Laws::Length::is_set, crate::proofs::Laws::Length::not_set))]
#[unsafe(no_mangle)]
pub extern "C" fn set_count(set: &[u8]) -> u32
    ensures { IfSet set.now (result ≡ tests.count set_slots (has set.now)) (result ≡ 0) }
{
    if set.len() != SET_BYTES {
        return 0;
    }
    SlotSet::read(set).len()
}
