// Signatures: for each slot the set of the classes that the slots of its row are in.
#![tactic(auto)]

ghost use Rattle.std.specs.Prelude.{◌≡◌, false, ◌||◌, ◌<◌, get_or};
ghost use Rattle.finite.specs.Tests.{same};
ghost use Rattle.bitset.specs.Set.{set_slots, has, Is};
ghost use Rattle.partition.specs.Rows.{RowsOf, sees, Signed};
ghost use Rattle.signatures.specs.Members.{owns};

use bitset::{SET_SLOTS, SlotSet};
use partition::Rows;

// A partition by the number of each slot, with the slots that have their own number, and the slots of each class.
#[derive(Drop)]
pub struct Members {
    pub numbers: [u8; SET_SLOTS],
    own: SlotSet,
    classes: Rows,
    // How many classes have slots that do not have their own number. It decides how these are looked at, and nothing rests on it.
    shared: u32,
    ghost has_own: { Is own (owns numbers) },
    ghost has_classes: { RowsOf (λ c t. same (get_or numbers t 0) c) classes },
}

// The slots that have their own number.
fn own_slots(numbers: &[u8; SET_SLOTS]) -> SlotSet
    ensures { Is result (owns numbers.now) }
{
    let mut own = SlotSet::empty();
    for t in 0..SET_SLOTS {
        if usize::from(numbers[t]) == t {
            own.insert(t);
        }
    }
    own
}

// Puts each slot into the row of its number, in rows of no slot.
fn put_classes(numbers: &[u8; SET_SLOTS], classes: &mut Rows)
    requires { RowsOf (λ c t. false) classes.old }
    ensures { RowsOf (λ c t. same (get_or numbers.now t 0) c) classes.new }
{
    for t in 0..SET_SLOTS {
        classes[usize::from(numbers[t])].insert(t);
    }
}

// The classes that were seen, and those that the slots of a set are in, slot by slot.
fn with_classes(seen: SlotSet, numbers: &[u8; SET_SLOTS], set: SlotSet) -> SlotSet
    ensures { Is result (λ c. has seen c || sees set numbers.now c) }
{
    let mut seen = seen;
    for t in set {
        seen.insert(usize::from(numbers[t]));
    }
    seen
}

// To take out all slots of a class takes as long as to look at so many slots one by one.
const SLOTS_A_CLASS: u32 = 2;

// Slots without their own number that are in no more classes than these are not counted: each class is taken out at once.
const FEW_CLASSES: u32 = 4;

impl Members {
    pub fn new(numbers: [u8; SET_SLOTS]) -> Members
        ensures { result.numbers ≡ numbers }
    {
        // Before the other locals: it is then filled once.
        let mut classes = [SlotSet::empty(); SET_SLOTS];
        put_classes(&numbers, &mut classes);
        let own = own_slots(&numbers);
        let shared = with_classes(SlotSet::empty(), &numbers, !own).len();
        Members {
            numbers,
            own,
            classes,
            shared,
        }
    }

    // Is it faster to look at these slots, which do not have their own number, one by one?
    fn few(&self, others: SlotSet) -> bool {
        if self.shared <= FEW_CLASSES {
            return false;
        }
        let n = others.len();
        1 < n && n / SLOTS_A_CLASS < self.shared
    }

    // The classes that the slots of a row are in. A slot that has its own number stands for its class. Of the others, which few rows have once classes
    // are small, those of a class are taken at once, until it is faster to look at what is left one by one.
    fn seen(&self, row: SlotSet) -> SlotSet
        ensures { Is result (sees row self.now.numbers) }
    {
        let mut seen = row & self.own;
        let mut others = row - self.own;
        if others.is_empty() {
            return seen;
        }
        while let Some(t) = others.lowest() {
            let class = usize::from(self.numbers[t]);
            seen.insert(class);
            others = others - self.classes[class];
            if self.few(others) {
                return with_classes(seen, &self.numbers, others);
            }
        }
        seen
    }
}

// The signature of each slot, in the place of what stood there: the classes that the slots of its row are in. A row that is the same as the one
// before it is not looked at again.
pub fn of_rows(rows: &Rows, members: &Members, signatures: &mut Rows)
    ensures { Signed rows.now members.now.numbers signatures.new }
{
    let mut row = SlotSet::empty();
    let mut seen = SlotSet::empty();
    for s in 0..SET_SLOTS {
        if rows[s] != row {
            row = rows[s];
            seen = members.seen(row);
        }
        signatures[s] = seen;
    }
}
