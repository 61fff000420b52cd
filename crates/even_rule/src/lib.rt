// The check of a condition's table. Items 9 and 10 go by a word for each node: bit v for the variable v where it occurs free under an even
// number of nots, bit v + 16 where it does under an odd number.
#![tactic(auto)]

ghost use Rattle.std.specs.Prelude.{◌≡◌, not, ◌+◌, ◌*◌, ◌-◌, ◌^◌, ◌≤◌, ◌<◌, length};
ghost use Rattle.std.specs.Int.Bits.{bit_and};
ghost use Rattle.verdict.specs.Verdict.{Accepted};
ghost use Rattle.finite.specs.Tests.{bit};
ghost use Rattle.limits.specs.Limits.{table_nodes};
ghost use Rattle.semantics.specs.Form.{even};
ghost use Rattle.semantics.specs.Table.{tree_at};
ghost use Rattle.condition.specs.Bytes.{table_of};
ghost use Rattle.condition.specs.Refusal.{nodes_verdict, even_verdict};
ghost use Rattle.even_rule.specs.Free.{no_masks, Checked};
ghost use Rattle.even_rule.specs.Masks.{word_bits, full_word, swap, free_bits, Shows, Children, Rows, Fit, Visitable, Visited, United};

use limits::{DIA, MU, NOT, NU, OR, TABLE_NODES, VAR};
use verdict::Refusal;

// A mask has 16 bits and is below 65,536: a bit for each variable.
const MASK_BITS: usize = 16;

const MASK_LIMIT: u64 = 65536;

// Set in the word of each node that is done, so that no such word is 0.
const DONE: u64 = 4294967296;

// The word of bit v alone.
fn single(v: usize) -> u64
    requires { v < word_bits }
    ensures { result ≡ 2 ^ v }
{
    1u64 << v
}

fn without(word: u64, v: usize) -> u64
    requires { v < word_bits }
    ensures { result ≡ bit_and word (full_word - 2 ^ v) }
{
    word & !single(v)
}

fn has(word: u64, v: usize) -> bool
    requires { v < word_bits }
    ensures { result ≡ bit word v }
{
    (word >> v) % 2 == 1
}

// Under one not more, even and odd are exchanged.
fn swapped(word: u64) -> u64
    ensures { result ≡ swap word }
{
    word / MASK_LIMIT % MASK_LIMIT + MASK_LIMIT * (word % MASK_LIMIT)
}

// The variables that are free, under whatever number of nots.
fn free_in(word: u64) -> u16
    ensures { result ≡ free_bits word }
{
    (word % MASK_LIMIT | word / MASK_LIMIT % MASK_LIMIT) as u16
}

// The word of node i, from its children's words.
fn word_of(table: &[u8], words: &[u64; TABLE_NODES], i: usize) -> u64
    requires fit { Fit table.now }
    requires i_in_bounds { 6 * i + 6 ≤ length table.now }
    requires children { Children table.now words.now i }
    ensures { Shows (tree_at (table_of table.now) i) result }
{
    let k = condition::kind(table, i);
    if k < VAR {
        return 0;
    }
    if k < NOT {
        return single(condition::number(table, i));
    }
    if NU < k {
        return 0;
    }
    let w = words[condition::left_child(table, i)];
    if k < OR {
        return swapped(w);
    }
    if k < DIA {
        return w | words[condition::right_child(table, i)];
    }
    if k < MU {
        return w;
    }
    let v = condition::number(table, i);
    without(without(w, v), v + MASK_BITS)
}

// Node c gets its word, after its children, where it is below i and not done. A field that c does not use is 0: node 0 is visited then, which
// has no child.
#[cycle(visit_visit_child)]
fn visit(table: &[u8], words: &mut [u64; TABLE_NODES], i: usize, c: usize)
    requires { Visitable table.now words.old i }
    ensures { Visited table.now words.old words.new i c }
{
    if i <= c {
        return;
    }
    if 0 < words[c] {
        return;
    }
    let l = condition::left(table, c);
    visit_child(table, words, c, l);
    let r = condition::right(table, c);
    visit_child(table, words, c, r);
    let w = word_of(table, words, c);
    words[c] = w | DONE;
}

// `visit` again, for every second level. The compiler puts it into `visit`, so that a call takes a node and its children: where calls are
// nested deep, their returns cost the most.
#[cycle(visit_visit_child)]
fn visit_child(table: &[u8], words: &mut [u64; TABLE_NODES], i: usize, c: usize)
    requires { Visitable table.now words.old i }
    ensures { Visited table.now words.old words.new i c }
{
    if i <= c {
        return;
    }
    if 0 < words[c] {
        return;
    }
    let l = condition::left(table, c);
    visit(table, words, c, l);
    let r = condition::right(table, c);
    visit(table, words, c, r);
    let w = word_of(table, words, c);
    words[c] = w | DONE;
}

// The words of all n nodes, from the last one down: the visit of a node goes on to its children, and one that is done is passed by.
fn visit_all(table: &[u8], words: &mut [u64; TABLE_NODES], n: usize)
    requires visitable { Visitable table.now words.old n }
    requires table_len { length table.now ≡ 6 * n }
    ensures { Rows table.now words.new }
{
    for i in (0..n).rev() {
        visit(table, words, n, i);
    }
}

// Node i is a mu or nu that breaks the even rule.
fn uneven(table: &[u8], words: &[u64; TABLE_NODES], i: usize) -> bool
    requires fit { Fit table.now }
    requires i_in_bounds { 6 * i + 6 ≤ length table.now }
    requires rows { Rows table.now words.now }
    ensures { result ≡ not (even (tree_at (table_of table.now) i)) }
{
    let k = condition::kind(table, i);
    if k < MU {
        return false;
    }
    if NU < k {
        return false;
    }
    has(
        words[condition::left_child(table, i)],
        condition::number(table, i) + MASK_BITS,
    )
}

// Item 9, by the lowest node that breaks the even rule.
fn check_even(table: &[u8], words: &[u64; TABLE_NODES]) -> Result<(), Refusal>
    requires fit { Fit table.now }
    requires rows { Rows table.now words.now }
    ensures { result ≡ even_verdict table.now }
{
    let n = table.len() / 6;
    for i in 0..n {
        if uneven(table, words, i) {
            return Err(Refusal::EvenRule(i as u16));
        }
    }
    Ok(())
}

// The free variables of the first n nodes.
fn unite(words: &[u64; TABLE_NODES], free: &mut [u16], n: usize)
    requires { (n ≤ table_nodes) × (length free.old ≡ table_nodes) }
    ensures { United words.now free.old free.new n }
{
    for i in 0..n {
        free[i] = free_in(words[i]);
    }
}

// Room for the masks of a table's free variables.
pub fn no_masks() -> [u16; TABLE_NODES]
    ensures { result ≡ no_masks }
{
    [0u16; TABLE_NODES]
}

// Items 9 and 10 of a table that meets neither 7 nor 8.
fn check_rules(table: &[u8], free: &mut [u16]) -> Result<(), Refusal>
    requires nodes { nodes_verdict table.now ≡ Accepted }
    requires free_value { free.old ≡ no_masks }
    ensures { Checked table.now free.new result }
{
    let n = table.len() / 6;
    let mut words = [0u64; TABLE_NODES];
    visit_all(table, &mut words, n);
    check_even(table, &words)?;
    let last = n - 1;
    if 0 < free_in(words[last]) {
        return Err(Refusal::FreeVariable(last as u16));
    }
    unite(&words, free, n);
    Ok(())
}

// Items 7 to 10, in this order. An accepted table's free variables are written to `free`, which is zero before, and after a refusal.
pub fn check(table: &[u8], free: &mut [u16]) -> Result<(), Refusal>
    requires { free.old ≡ no_masks }
    ensures { Checked table.now free.new result }
{
    condition::check_nodes(table)?;
    check_rules(table, free)
}
