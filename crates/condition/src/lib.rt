// The node table of a condition: reading a node's fields, and items 7 and 8.
#![tactic(auto)]

ghost use Rattle.std.specs.Prelude.{◌≡◌, true, ◌+◌, ◌*◌, ◌≤◌, ◌<◌, length};
ghost use Rattle.limits.specs.Limits.{not_no, or_no, and_no, nu_no};
ghost use Rattle.semantics.specs.Table.{kind_of, node_fits, nodes_fit};
ghost use Rattle.condition.specs.Bytes.{word_at, node_at, table_of};
ghost use Rattle.condition.specs.Limits.{param_limit, child_limit};
ghost use Rattle.condition.specs.Refusal.{size_fits, first_unfit, nodes_verdict};

use limits::{DIA, KINDS, NODE_BYTES, NOT, OR, SLOT, TABLE_BYTES};
use verdict::Refusal;

// The bounds of parameters, as they are compared.
const LABEL_LIMIT: usize = limits::LABELS as usize;

const NAME_LIMIT: usize = limits::NAMES as usize;

const VARIABLE_LIMIT: usize = limits::VARIABLES as usize;

const WAY_LIMIT: usize = limits::EVERY as usize + 1;

// Item 7 is not met by a table of n bytes.
#[tactic(auto, using(finite::proofs::Laws::Below::ne_same, finite::proofs::Laws::Below::below_in), unfolding(crate::specs::Refusal::size_fits))]
pub fn size_fits(n: usize) -> bool
    ensures { result ≡ size_fits n }
{
    (n % NODE_BYTES == 0) & (n >= NODE_BYTES) & (n <= TABLE_BYTES)
}

fn word(table: &[u8], at: usize) -> usize
    requires { at + 2 ≤ length table.now }
    ensures { (result ≡ word_at table.now at) × (result < 65536) }
{
    usize::from(u16::from_le_bytes([table[at], table[at + 1]]))
}

// The fields of node i, of any bytes.
pub fn kind(table: &[u8], i: usize) -> u8
    requires { 6 * i + 6 ≤ length table.now }
    ensures { result ≡ (node_at table.now i).kind }
{
    table[6 * i]
}

pub fn param(table: &[u8], i: usize) -> u8
    requires { 6 * i + 6 ≤ length table.now }
    ensures { result ≡ (node_at table.now i).param }
{
    table[6 * i + 1]
}

pub fn left(table: &[u8], i: usize) -> usize
    requires { 6 * i + 6 ≤ length table.now }
    ensures { (result ≡ (node_at table.now i).left) × (result < 65536) }
{
    word(table, 6 * i + 2)
}

pub fn right(table: &[u8], i: usize) -> usize
    requires { 6 * i + 6 ≤ length table.now }
    ensures { (result ≡ (node_at table.now i).right) × (result < 65536) }
{
    word(table, 6 * i + 4)
}

// The parameter and the children of node i of a table whose nodes fit: a parameter is below the limit of its kind, and a child is lower than its node.
pub fn number(table: &[u8], i: usize) -> usize
    requires table_value { nodes_fit 0 (table_of table.now) ≡ true }
    requires i_in_bounds { 6 * i + 6 ≤ length table.now }
    ensures { (result ≡ (node_at table.now i).param) × (result < param_limit (kind_of (node_at table.now i).kind)) }
{
    usize::from(param(table, i))
}

pub fn left_child(table: &[u8], i: usize) -> usize
    requires table_value { nodes_fit 0 (table_of table.now) ≡ true }
    requires i_in_bounds { 6 * i + 6 ≤ length table.now }
    requires not_no_bound { (not_no ≤ (node_at table.now i).kind) × ((node_at table.now i).kind ≤ nu_no) }
    ensures { (result ≡ (node_at table.now i).left) × (result < i) }
{
    left(table, i)
}

pub fn right_child(table: &[u8], i: usize) -> usize
    requires table_value { nodes_fit 0 (table_of table.now) ≡ true }
    requires i_in_bounds { 6 * i + 6 ≤ length table.now }
    requires or_no_bound { (or_no ≤ (node_at table.now i).kind) × ((node_at table.now i).kind ≤ and_no) }
    ensures { (result ≡ (node_at table.now i).right) × (result < i) }
{
    right(table, i)
}

// The bounds of item 8 by kind. A field that is not used is below 1. The arms are constants, so that the compiler makes a table of them.
#[tactic(auto, unfolding(semantics::specs::Table::kind_of, crate::specs::Limits::param_limit))]
fn param_limit(k: u8) -> usize
    ensures { result ≡ param_limit (kind_of k) }
{
    match k {
        limits::TRUE => 1,
        limits::HERE => 1,
        limits::LABEL => LABEL_LIMIT,
        limits::NAME => NAME_LIMIT,
        limits::VAR => VARIABLE_LIMIT,
        NOT => 1,
        OR => 1,
        limits::AND => 1,
        DIA => WAY_LIMIT,
        limits::BOX => WAY_LIMIT,
        limits::MU => VARIABLE_LIMIT,
        limits::NU => VARIABLE_LIMIT,
        _ => 256,
    }
}

fn child_limit(k: u8, lo: u8, hi: u8, i: usize) -> usize
    ensures { result ≡ child_limit lo hi k i }
{
    if k < lo {
        return 1;
    }
    if k < hi {
        return i;
    }
    1
}

// Item 8 is not met by node i. All fields are compared before the one branch: a branch on the kind would often be mispredicted.
fn node_fits(table: &[u8], i: usize) -> bool
    requires { 6 * i + 6 ≤ length table.now }
    ensures { result ≡ node_fits i (node_at table.now i) }
{
    let k = kind(table, i);
    let p = usize::from(param(table, i)) < param_limit(k);
    let l = left(table, i) < child_limit(k, NOT, SLOT, i);
    let r = right(table, i) < child_limit(k, OR, DIA, i);
    (k < KINDS) & p & l & r
}

// The lowest node that meets item 8, and the number of nodes where none does.
pub fn first_unfit(table: &[u8]) -> usize
    ensures { result ≡ first_unfit table.now }
{
    let n = table.len() / NODE_BYTES;
    for i in 0..n {
        if !node_fits(table, i) {
            return i;
        }
    }
    n
}

// The first of items 7 and 8 that is met; 8 by the lowest node that meets it.
pub fn check_nodes(table: &[u8]) -> Result<(), Refusal>
    ensures { result ≡ nodes_verdict table.now }
{
    if !size_fits(table.len()) {
        return Err(Refusal::ConditionLength);
    }
    let i = first_unfit(table);
    if i < table.len() / NODE_BYTES {
        return Err(Refusal::MalformedNode(i as u16));
    }
    Ok(())
}
