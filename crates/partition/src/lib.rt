// Partitions of the slots by rows of bits.
#![tactic(auto)]

ghost use Rattle.std.specs.Prelude.{◌≡◌, ◌&&◌, ◌<◌};
ghost use Rattle.finite.specs.Tests.{same};
ghost use Rattle.bitset.specs.Set.{has, set_slots};
ghost use Rattle.partition.specs.Gains.{Gains};

use bitset::{SET_SLOTS, SlotSet};

// A set for each slot.
pub type Rows = [SlotSet; SET_SLOTS];

// Puts slot c into the rows of the slots.
pub fn put(rows: &mut Rows, slots: SlotSet, c: usize)
    requires { c < set_slots }
    ensures { Gains (λ s t. has slots s && same t c) rows.old rows.new }
{
    for s in slots {
        rows[s].insert(c);
    }
}
