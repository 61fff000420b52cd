// Lists a condition on a site: the set of the slots where it holds. Evaluation goes by recursion on a node's children and is
// memoised: node i's set is written at byte 32 * i of the work buffer, with the rounds made for it beside, and is computed again only once a
// variable that is free in the node has moved. Rounds are counted as if nothing were kept: a node that is known adds those that were made for it.
#![tactic(auto)]

mod limit;
mod question;

ghost use Rattle.std.specs.Prelude.{◌≡◌, ◌⊎◌, ◌+◌, ◌*◌, ◌≤◌, true, length, replicate, MatchResult};
ghost use Rattle.bitset.specs.Set.{set_bytes, has};
ghost use Rattle.finite.specs.Bytes.{Bytes};
ghost use Rattle.semantics.specs.Table.{form_of};
ghost use Rattle.semantics.specs.Agree.{◌≐◌};
ghost use Rattle.site.specs.Site.{site_of};
ghost use Rattle.verdict.specs.Verdict.{Accepted};
ghost use Rattle.condition.specs.Bytes.{node_at, table_of};
ghost use Rattle.condition.specs.Refusal.{condition_verdict};
ghost use Rattle.even_rule.specs.Free.{FreeRows};
ghost use Rattle.limits.specs.Limits.{table_nodes, highest_limit, not_no, or_no, and_no, dia_no, box_no, mu_no, nu_no};
ghost use Rattle.listing_memo.specs.Memo.{valuation};
ghost use Rattle.listing_sets.specs.Nodes.{start_of};
ghost use Rattle.listing_sets.specs.Offsets.{SetWritten};
ghost use Rattle.listing.specs.Listed.{work_bytes, Listed};
ghost use Rattle.listing.specs.Limited.{Limited, Answered};
ghost use Rattle.listing.specs.Counting.{Usual};
ghost use Rattle.listing.specs.State.{node_set, Evaluable, Evaluated, Over};

use bitset::{SET_BYTES, SET_SLOTS, SlotSet};
use limit::{OverLimit, count, remaining};
use limits::{AND, BOX, DIA, MU, NODE_BYTES, NOT, NU, OR, TABLE_NODES};
use listing_memo::{Memo, Variable};
use question::Question;
use site::Site;

// The work buffer has a set for each node of a table.
pub const WORK_BYTES: usize = SET_BYTES * TABLE_NODES;

// Evaluations of a loop's body that are enough: after as many as there are slots it is at rest, and one more shows it.
const ENOUGH: usize = SET_SLOTS + 1;

// The answer of a list: how many slots the set holds, and how many rounds were made.
#[derive(Clone, Copy)]
pub struct Found {
    pub count: u32,
    pub rounds: u32,
}

// The rounds of node i, whose set is written to the work buffer if it is not there already.
#[cycle(binary_compute_eval_fixpoint_fixpoint_from_unary)]
fn eval(
    question: &Question,
    memo: &mut Memo,
    work: &mut [u8],
    i: usize,
    limit: Option<u32>,
) -> Result<u32, OverLimit>
    requires evaluable { Evaluable question.now.site.now question.now.table.now limit memo.old work.old }
    requires i_in_bounds { 6 * i + 6 ≤ length question.now.table.now }
    ensures work_size { length work.new ≡ work_bytes }
    ensures answer { MatchResult result (λ n. Evaluated question.now.site.now question.now.table.now limit memo.old memo.new work.new i n) (λ _. Over question.now.site.now question.now.table.now limit memo.old i) }
{
    if memo.knows(i) {
        return count(limit, memo.rounds(i));
    }
    let made = compute(question, memo, work, i, limit)?;
    memo.keep(i, made);
    Ok(made)
}

// The rounds of node i, whose set is written to the work buffer, known or not.
#[cycle(binary_compute_eval_fixpoint_fixpoint_from_unary)]
fn compute(
    question: &Question,
    memo: &mut Memo,
    work: &mut [u8],
    i: usize,
    limit: Option<u32>,
) -> Result<u32, OverLimit>
    requires evaluable { Evaluable question.now.site.now question.now.table.now limit memo.old work.old }
    requires i_in_bounds { 6 * i + 6 ≤ length question.now.table.now }
    ensures work_size { length work.new ≡ work_bytes }
    ensures answer { MatchResult result (λ n. Evaluated question.now.site.now question.now.table.now limit memo.old memo.new work.new i n) (λ _. Over question.now.site.now question.now.table.now limit memo.old i) }
{
    match condition::kind(question.table, i) {
        NOT | DIA | BOX => unary(question, memo, work, i, limit),
        OR | AND => binary(question, memo, work, i, limit),
        MU | NU => fixpoint(question, memo, work, i, limit),
        _ => Ok(leaf(question, memo, work, i)),
    }
}

// Node i has no child: its set is written, and no round is made.
fn leaf(question: &Question, memo: &Memo, work: &mut [u8], i: usize) -> u32
    requires work_size { length work.old ≡ work_bytes }
    requires i_in_bounds { 6 * i + 6 ≤ length question.now.table.now }
    requires fact { not_no ≤ (node_at question.now.table.now i).kind → (node_at question.now.table.now i).kind ≤ nu_no → ⊥ }
    ensures set_written { SetWritten work.old work.new i (node_set question.now.site.now question.now.table.now (valuation memo.now) i) }
    ensures value { result ≡ 0 }
{
    listing_sets::put_leaf(question.site, question.table, memo, work, i);
    0
}

// Node i is a not, diamond or box: its rounds are its child's.
#[cycle(binary_compute_eval_fixpoint_fixpoint_from_unary)]
fn unary(
    question: &Question,
    memo: &mut Memo,
    work: &mut [u8],
    i: usize,
    limit: Option<u32>,
) -> Result<u32, OverLimit>
    requires evaluable { Evaluable question.now.site.now question.now.table.now limit memo.old work.old }
    requires i_in_bounds { 6 * i + 6 ≤ length question.now.table.now }
    requires fact { ((node_at question.now.table.now i).kind ≡ not_no) ⊎ (((node_at question.now.table.now i).kind ≡ dia_no) ⊎ ((node_at question.now.table.now i).kind ≡ box_no)) }
    ensures work_size { length work.new ≡ work_bytes }
    ensures answer { MatchResult result (λ n. Evaluated question.now.site.now question.now.table.now limit memo.old memo.new work.new i n) (λ _. Over question.now.site.now question.now.table.now limit memo.old i) }
{
    let child = condition::left_child(question.table, i);
    let made = eval(question, memo, work, child, limit)?;
    let set = listing_sets::load(work, child);
    listing_sets::put_unary(question.site, question.table, work, i, set);
    Ok(made)
}

// Node i is an `or` or an `and`: both children are evaluated, and their rounds add up. The left set is taken out before the right child is
// evaluated, since a loop below the right child may give a shared node another set.
#[cycle(binary_compute_eval_fixpoint_fixpoint_from_unary)]
fn binary(
    question: &Question,
    memo: &mut Memo,
    work: &mut [u8],
    i: usize,
    limit: Option<u32>,
) -> Result<u32, OverLimit>
    requires evaluable { Evaluable question.now.site.now question.now.table.now limit memo.old work.old }
    requires i_in_bounds { 6 * i + 6 ≤ length question.now.table.now }
    requires or_no_bound { (or_no ≤ (node_at question.now.table.now i).kind) × ((node_at question.now.table.now i).kind ≤ and_no) }
    ensures work_size { length work.new ≡ work_bytes }
    ensures answer { MatchResult result (λ n. Evaluated question.now.site.now question.now.table.now limit memo.old memo.new work.new i n) (λ _. Over question.now.site.now question.now.table.now limit memo.old i) }
{
    let left = condition::left_child(question.table, i);
    let made_left = eval(question, memo, work, left, limit)?;
    let left_set = listing_sets::load(work, left);
    let right = condition::right_child(question.table, i);
    let made_right = eval(question, memo, work, right, remaining(limit, made_left))?;
    let right_set = listing_sets::load(work, right);
    listing_sets::put_binary(question.table, work, i, left_set, right_set);
    Ok(made_left + made_right)
}

// Node i is a mu or nu. Since there are two calls of `fixpoint_from`, the compiler leaves it a function of its own; put in place, it would
// lengthen the frame of every node.
#[cycle(binary_compute_eval_fixpoint_fixpoint_from_unary)]
fn fixpoint(
    question: &Question,
    memo: &mut Memo,
    work: &mut [u8],
    i: usize,
    limit: Option<u32>,
) -> Result<u32, OverLimit>
    requires evaluable { Evaluable question.now.site.now question.now.table.now limit memo.old work.old }
    requires i_in_bounds { 6 * i + 6 ≤ length question.now.table.now }
    requires mu_no_bound { (mu_no ≤ (node_at question.now.table.now i).kind) × ((node_at question.now.table.now i).kind ≤ nu_no) }
    ensures work_size { length work.new ≡ work_bytes }
    ensures answer { MatchResult result (λ n. Evaluated question.now.site.now question.now.table.now limit memo.old memo.new work.new i n) (λ _. Over question.now.site.now question.now.table.now limit memo.old i) }
{
    if condition::kind(question.table, i) == MU {
        fixpoint_from(question, memo, work, i, limit, listing_sets::start(MU))
    } else {
        fixpoint_from(question, memo, work, i, limit, listing_sets::start(NU))
    }
}

// Node i is a mu or nu: rounds from the set `start` until one gives back its set, as long as they are within the limit. Each round counts, with those
// inside the body. The variable then has its old set again.
#[cycle(binary_compute_eval_fixpoint_fixpoint_from_unary)]
fn fixpoint_from(
    question: &Question,
    memo: &mut Memo,
    work: &mut [u8],
    i: usize,
    limit: Option<u32>,
    start: SlotSet,
) -> Result<u32, OverLimit>
    requires evaluable { Evaluable question.now.site.now question.now.table.now limit memo.old work.old }
    requires i_in_bounds { 6 * i + 6 ≤ length question.now.table.now }
    requires mu_no_bound { (mu_no ≤ (node_at question.now.table.now i).kind) × ((node_at question.now.table.now i).kind ≤ nu_no) }
    requires has { has start ≐ start_of (node_at question.now.table.now i).kind }
    requires whole { (length start ≡ set_bytes) × Bytes start }
    ensures work_size { length work.new ≡ work_bytes }
    ensures answer { MatchResult result (λ n. Evaluated question.now.site.now question.now.table.now limit memo.old memo.new work.new i n) (λ _. Over question.now.site.now question.now.table.now limit memo.old i) }
{
    let variable = Variable::at(condition::param(question.table, i));
    let body = condition::left_child(question.table, i);
    let old = memo.variable(variable);
    let mut set = start;
    let mut total = 0;
    for _round in 0..ENOUGH {
        memo.assign(variable, set);
        let inside = eval(question, memo, work, body, remaining(limit, total))?;
        total = count(limit, total + 1 + inside)?;
        let next = listing_sets::load(work, body);
        let rests = next == set;
        set = next;
        if rests {
            break;
        }
    }
    memo.assign(variable, old);
    listing_sets::store(work, i, set);
    Ok(total)
}

// The condition's set, how many slots it holds and how many rounds were made, within the limit. Its last node is not known yet, so `compute`
// is called for it: with a second call the compiler leaves `compute` a function of its own, and puts the small `eval` in place.
fn evaluate(
    site: &Site,
    table: &[u8],
    free: &[u16],
    limit: Option<u32>,
    set: &mut [u8],
    work: &mut [u8],
) -> Result<Found, OverLimit>
    requires table_value { condition_verdict table.now ≡ Accepted }
    requires free_len { (length free.now ≡ table_nodes) × FreeRows table.now free.now }
    requires usual { Usual limit }
    requires set_len { (length set.old ≡ set_bytes) × (length work.old ≡ work_bytes) }
    ensures answered { Answered limit (site_of site.now) (form_of (table_of table.now)) set.new result }
    ensures work_after { work.new ≡ replicate work_bytes 0 }
{
    let nodes = table.len() / NODE_BYTES;
    let mut memo = Memo::empty();
    memo.start(&free[..nodes]);
    let top = nodes - 1;
    let question = Question { site, table };
    let made = compute(&question, &mut memo, work, top, limit);
    let last = listing_sets::load(work, top);
    work.fill(0);
    let rounds = made?;
    last.write(set);
    Ok(Found {
        count: last.len(),
        rounds,
    })
}

// Lists the condition as long as its rounds are within the limit: one round over it shows that they are not.
pub fn list(
    site: &Site,
    table: &[u8],
    free: &[u16],
    limit: u32,
    set: &mut [u8],
    work: &mut [u8],
) -> Found
    requires table_value { condition_verdict table.now ≡ Accepted }
    requires free_len { (length free.now ≡ table_nodes) × FreeRows table.now free.now }
    requires limit_le_highest_limit { limit ≤ highest_limit }
    requires set_len { (length set.old ≡ set_bytes) × (length work.old ≡ work_bytes) }
    ensures limited { Limited limit (site_of site.now) (form_of (table_of table.now)) set.new result }
    ensures work_after { work.new ≡ replicate work_bytes 0 }
{
    match evaluate(site, table, free, Some(limit), set, work) {
        Ok(found) => found,
        Err(OverLimit) => Found {
            count: 0,
            rounds: limit + 1,
        },
    }
}

// Lists the condition however many rounds it makes, and answers how many slots the set holds. Without a limit no round is
// counted, since nothing bounds their number.
pub fn list_all(site: &Site, table: &[u8], free: &[u16], set: &mut [u8], work: &mut [u8]) -> u32
    requires table_value { condition_verdict table.now ≡ Accepted }
    requires free_len { (length free.now ≡ table_nodes) × FreeRows table.now free.now }
    requires set_len { (length set.old ≡ set_bytes) × (length work.old ≡ work_bytes) }
    ensures listed { Listed (site_of site.now) (form_of (table_of table.now)) set.new result }
    ensures work_after { work.new ≡ replicate work_bytes 0 }
{
    match evaluate(site, table, free, None, set, work) {
        Ok(found) => found.count,
        Err(OverLimit) => unreachable!(),
    }
}
