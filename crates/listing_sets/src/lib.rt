// Sets of slots in a buffer, set j in the 32 bytes from offset 32 * j on; and the sets of nodes, written there from their children's sets.
#![tactic(auto)]

ghost use Rattle.std.specs.Prelude.{◌≡◌, ◌⊎◌, true, ◌+◌, ◌*◌, ◌≤◌, length};
ghost use Rattle.finite.specs.Bytes.{Bytes};
ghost use Rattle.bitset.specs.Set.{set_bytes, has};
ghost use Rattle.limits.specs.Limits.{not_no, or_no, and_no, dia_no, box_no, nu_no};
ghost use Rattle.semantics.specs.Holds.{Model};
ghost use Rattle.semantics.specs.Table.{tree_at, nodes_fit};
ghost use Rattle.semantics.specs.Eval.{eval};
ghost use Rattle.semantics.specs.Agree.{◌≐◌};
ghost use Rattle.site.specs.Site.{site_of};
ghost use Rattle.condition.specs.Bytes.{node_at, table_of};
ghost use Rattle.listing_memo.specs.Memo.{valuation};
ghost use Rattle.listing_sets.specs.Offsets.{set_at, SetWritten};
ghost use Rattle.listing_sets.specs.Nodes.{start_of, node_makes};

use bitset::{SET_BYTES, SlotSet};
use limits::{Below, DIA, HERE, LABEL, MU, NAME, NOT, OR, TRUE, VAR};
use listing_memo::Memo;
use site::{Site, Way};

// Set j of the buffer.
pub fn load(buf: &[u8], j: usize) -> SlotSet
    requires { set_bytes * j + set_bytes ≤ length buf.now }
    ensures set { has result ≐ set_at buf.now j }
    ensures size { length result ≡ set_bytes }
    ensures bytes { Bytes result }
{
    let from = SET_BYTES * j;
    SlotSet::read(&buf[from..from + SET_BYTES])
}

// Set j of the buffer becomes `set`.
pub fn store(buf: &mut [u8], j: usize, set: SlotSet)
    requires { set_bytes * j + set_bytes ≤ length buf.old }
    ensures { SetWritten buf.old buf.new j (has set) }
{
    let at = SET_BYTES * j;
    set.write(&mut buf[at..at + SET_BYTES]);
}

// The set from which a loop's rounds start: none for a mu, all slots for a nu. It is read, since callers then know its bytes.
pub fn start(kind: u8) -> SlotSet
    ensures set { has result ≐ start_of kind }
    ensures size { length result ≡ set_bytes }
    ensures bytes { Bytes result }
{
    if kind == MU {
        SlotSet::read(&[0; SET_BYTES])
    } else {
        SlotSet::read(&[u8::MAX; SET_BYTES])
    }
}

// The set of node i, which has no child.
fn leaf_set(site: &Site, table: &[u8], memo: &Memo, i: usize) -> SlotSet
    requires table_value { nodes_fit 0 (table_of table.now) ≡ true }
    requires i_in_bounds { 6 * i + 6 ≤ length table.now }
    requires fact { not_no ≤ (node_at table.now i).kind → (node_at table.now i).kind ≤ nu_no → ⊥ }
    ensures { has result ≐ eval (site_of site.now) (valuation memo.now) (tree_at (table_of table.now) i) }
{
    let number = condition::param(table, i);
    match condition::kind(table, i) {
        TRUE => SlotSet::full(),
        HERE => site.present_slots(),
        LABEL => site.labelled(Below::at(number)),
        NAME => SlotSet::single(usize::from(site.place(Below::at(number)))),
        VAR => memo.variable(Below::at(number)),
        _ => SlotSet::single(usize::from(number)),
    }
}

// Writes the set of node i, which has no child, as set i of the work buffer.
pub fn put_leaf(site: &Site, table: &[u8], memo: &Memo, work: &mut [u8], i: usize)
    requires table_value { nodes_fit 0 (table_of table.now) ≡ true }
    requires i_in_bounds { 6 * i + 6 ≤ length table.now }
    requires work_in_bounds { set_bytes * i + set_bytes ≤ length work.old }
    requires fact { not_no ≤ (node_at table.now i).kind → (node_at table.now i).kind ≤ nu_no → ⊥ }
    ensures { SetWritten work.old work.new i (eval (site_of site.now) (valuation memo.now) (tree_at (table_of table.now) i)) }
{
    let set = leaf_set(site, table, memo, i);
    store(work, i, set);
}

// Writes the set of node i, an `or` or an `and`, from its children's sets.
pub fn put_binary(table: &[u8], work: &mut [u8], i: usize, left: SlotSet, right: SlotSet)
    requires i_in_bounds { 6 * i + 6 ≤ length table.now }
    requires set_bytes_in_bounds { set_bytes * i + set_bytes ≤ length work.old }
    requires or_no_bound { (or_no ≤ (node_at table.now i).kind) × ((node_at table.now i).kind ≤ and_no) }
    ensures { (M : Model) → SetWritten work.old work.new i (node_makes M (node_at table.now i) (has left) (has right)) }
{
    if condition::kind(table, i) == OR {
        store(work, i, left | right);
    } else {
        store(work, i, left & right);
    }
}

// What node i, a not, diamond or box, makes of its child's set.
fn unary_set(site: &Site, table: &[u8], i: usize, set: SlotSet) -> SlotSet
    requires i_in_bounds { 6 * i + 6 ≤ length table.now }
    requires fact { ((node_at table.now i).kind ≡ not_no) ⊎ (((node_at table.now i).kind ≡ dia_no) ⊎ ((node_at table.now i).kind ≡ box_no)) }
    ensures { has result ≐ node_makes (site_of site.now) (node_at table.now i) (has set) (has set) }
{
    let number = condition::param(table, i);
    let kind = condition::kind(table, i);
    match kind {
        NOT => !set,
        DIA => modal::diamond(site, Way::from(number), &set),
        _ => modal::boxed(site, Way::from(number), &set),
    }
}

// Writes the set of node i, a not, diamond or box, from its child's set.
pub fn put_unary(site: &Site, table: &[u8], work: &mut [u8], i: usize, set: SlotSet)
    requires i_in_bounds { 6 * i + 6 ≤ length table.now }
    requires set_bytes_in_bounds { set_bytes * i + set_bytes ≤ length work.old }
    requires fact { ((node_at table.now i).kind ≡ not_no) ⊎ (((node_at table.now i).kind ≡ dia_no) ⊎ ((node_at table.now i).kind ≡ box_no)) }
    ensures { SetWritten work.old work.new i (node_makes (site_of site.now) (node_at table.now i) (has set) (has set)) }
{
    let made = unary_set(site, table, i, set);
    store(work, i, made);
}
