ghost use Rattle.std.specs.Prelude.{◌≡◌, ◌≤◌, ◌<◌, List, ℕ, length};
ghost use Rattle.bitset.specs.Set.{has, Is};
ghost use Rattle.limits.specs.Limits.{variables, table_nodes};
ghost use Rattle.listing_memo.specs.Memo as memo;
ghost use Rattle.listing_memo.specs.Memo.{made, variable_has, Kept, Assigned, Noted, Started};

use bitset::{BitSet, SlotSet};
use limits::{Below, TABLE_NODES};

const VARIABLES: usize = limits::VARIABLES as usize;

// A set of the nodes of a table.
type NodeSet = BitSet<32>;

pub type Variable = Below<16>;

#[derive(Drop)]
pub struct Memo {
    variables: [SlotSet; VARIABLES],
    known: NodeSet,
    rounds: [u32; TABLE_NODES],
    free_in: [NodeSet; VARIABLES],
}

impl Memo {
    // The memo at the start, of nodes with these masks of free variables: no variable has a slot, and no node is known.
    pub fn new(masks: &[u16]) -> Memo
        requires { length masks.now ≤ table_nodes }
        ensures { Started masks.now result (length masks.now) }
    {
        let mut memo = Memo::empty();
        memo.start(masks);
        memo
    }

    // The memo of no node.
    pub fn empty() -> Memo
        ensures { (masks : List ℕ) → Started masks result 0 }
    {
        let no_nodes = NodeSet::empty();
        Memo {
            variables: [SlotSet::empty(); VARIABLES],
            known: no_nodes,
            rounds: [0; TABLE_NODES],
            free_in: [no_nodes; VARIABLES],
        }
    }

    // A memo of no node is made that of nodes with these masks, where it stands: one that is handed on is copied, which costs time and stack.
    pub fn start(&mut self, masks: &[u16])
        requires few { length masks.now ≤ table_nodes }
        requires none { Started masks.now self.old 0 }
        ensures { Started masks.now self.new (length masks.now) }
    {
        for (j, &mask) in masks.iter().enumerate() {
            self.note(j, mask);
        }
    }

    // The variables of the mask are free in node j. A mask costs no more than its highest digit.
    fn note(&mut self, j: usize, mask: u16)
        requires { j < table_nodes }
        ensures { Noted self.old self.new j mask variables }
    {
        for x in 0..VARIABLES {
            let left = mask >> x;
            if left == 0 {
                return;
            }
            if left % 2 == 1 {
                self.free_in[x].insert(j);
            }
        }
    }

    // Is the set of node j known?
    pub fn knows(&self, j: usize) -> bool
        requires { j < table_nodes }
        ensures { result ≡ memo.known self.now j }
    {
        self.known.contains(j)
    }

    // The rounds made for node j.
    pub fn rounds(&self, j: usize) -> u32
        requires { j < table_nodes }
        ensures { result ≡ made self.now j }
    {
        self.rounds[j]
    }

    // The set of node j is known from now on, and these rounds were made for it.
    pub fn keep(&mut self, j: usize, rounds: u32)
        requires { j < table_nodes }
        ensures { Kept self.old self.new j rounds }
    {
        self.known.insert(j);
        self.rounds[j] = rounds;
    }

    // The slots of the variable x.
    pub fn variable(&self, x: Variable) -> SlotSet
        ensures { Is result (variable_has self.now x.number) }
    {
        self.variables[x.index()]
    }

    // The variable x gets the set, and the nodes in which it is free are not known any more.
    pub fn assign(&mut self, x: Variable, set: SlotSet)
        ensures { Assigned self.old self.new x.number (has set) }
    {
        let at = x.index();
        self.variables[at] = set;
        self.known = self.known - self.free_in[at];
    }
}
