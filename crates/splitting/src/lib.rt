// Classes of slots, split by the rows of their slots and by the classes that these rows are in.
#![tactic(auto)]

ghost use Rattle.std.specs.Prelude.{◌≡◌, ◌<◌};
ghost use Rattle.finite.specs.Tests.{first};
ghost use Rattle.bitset.specs.Set.{set_slots};
ghost use Rattle.partition.specs.Rows.{same_set};
ghost use Rattle.partition.specs.Partition.{Partition, Partitions, by_row_of, by_seen};

use bitset::{SET_SLOTS, SlotSet};
use partition::Rows;
use signatures::Members;

// Have the sets the same slots?
fn same(a: SlotSet, b: SlotSet) -> bool
    ensures { result ≡ same_set a b }
{
    let apart = (a - b) | (b - a);
    apart.is_empty()
}

// Are s and t in one class, with the same row?
fn alike(q: &[u8; SET_SLOTS], rows: &Rows, s: usize, t: usize) -> bool
    requires s { s < set_slots }
    requires t { t < set_slots }
    ensures { result ≡ by_row_of q.now rows.now s t }
{
    q[s] == q[t] && same(rows[s], rows[t])
}

// The lowest slot that is in the class of s and has its row. The search starts at the lowest slot of the class.
fn first_alike(q: &[u8; SET_SLOTS], rows: &Rows, s: usize) -> u8
    requires s { s < set_slots }
    requires partition { Partition q.now }
    ensures { result ≡ first set_slots (by_row_of q.now rows.now s) }
{
    for t in usize::from(q[s])..s {
        if alike(q, rows, s, t) {
            return t as u8;
        }
    }
    s as u8
}

// The classes of q, each split by the rows of its slots.
pub fn by_rows(q: &[u8; SET_SLOTS], rows: &Rows) -> [u8; SET_SLOTS]
    requires { Partition q.now }
    ensures { Partitions (by_row_of q.now rows.now) result }
{
    let mut r = [0; SET_SLOTS];
    for s in 0..SET_SLOTS {
        r[s] = first_alike(q, rows, s);
    }
    r
}

// The classes of q, each split by the classes of p that the rows of its slots are in.
pub fn by_seen(q: &[u8; SET_SLOTS], rows: &Rows, p: &Members) -> [u8; SET_SLOTS]
    requires { Partition q.now }
    ensures { Partitions (by_seen q.now rows.now p.now.numbers) result }
{
    let mut signatures = [SlotSet::empty(); SET_SLOTS];
    signatures::of_rows(rows, p, &mut signatures);
    by_rows(q, &signatures)
}
