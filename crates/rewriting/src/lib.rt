// A table of nodes rewritten through a sheet of edits, the last one first; and the condition for going through, which also gets each edit's own
// condition. docs/SPEC.md, "Rewriting" and "The condition for going through", and item 14 of "Reasons".
#![tactic(auto)]

ghost use Rattle.std.specs.Prelude.{◌≡◌, ◌++◌, true, ◌-◌, ◌≤◌, ◌<◌, length, take, replicate};
ghost use Rattle.semantics.specs.Edit.{legal, sheet_legal};
ghost use Rattle.semantics.specs.Table.{nodes_fit};
ghost use Rattle.semantics.specs.Block.{rewrite_table};
ghost use Rattle.through.specs.Through.{through_edit, one_true};
ghost use Rattle.condition.specs.Bytes.{nodes, table_of};
ghost use Rattle.sheet.specs.Bytes.{edit_of, edits_of};
ghost use Rattle.limits.specs.Limits.{table_nodes, node_size, table_bytes};
ghost use Rattle.rewriting.specs.State.{pass_of, TableMade, Passed, Finished, Rewrote};
ghost use Rattle.verdict.specs.Verdict.{outcome};
ghost use Rattle.rewriting.specs.Answer.{nodes_of};

use blocks::TooLong;
use buffer::copy;
use emitting::Stage;
use limits::{NODE_BYTES, TABLE_BYTES, TABLE_NODES};
use sheet::Op;
use verdict::Refusal;

// Zeros from byte n on.
fn clear_from(b: &mut [u8], n: usize)
    requires { n ≤ length b.old }
    ensures { b.new ≡ take n b.old ++ replicate (length b.old - n) 0 }
{
    b[n..].fill(0);
}

// What is made of a table for an edit: it is rewritten, or besides gets the edit's own condition behind it.
#[derive(Clone, Copy, PartialEq, Eq, Debug)]
enum Purpose {
    Rewrite,
    GoThrough,
}

// A pass over the first n nodes of a table for an edit. Gives how many nodes that makes.
fn pass(
    purpose: Purpose,
    table: &[u8; TABLE_BYTES],
    n: usize,
    e: Op,
    images: &mut [u16; TABLE_NODES],
    stages: &mut [Stage; TABLE_NODES],
    out: &mut [u8; TABLE_BYTES],
) -> Result<usize, TooLong>
    requires count { (0 < n) × (n ≤ table_nodes) }
    requires legal { legal (edit_of e) ≡ true }
    requires fits { nodes_fit 0 (nodes table.now n) ≡ true }
    ensures { TableMade (pass_of purpose (edit_of e) (nodes table.now n)) out.new result }
{
    let made = emitting::rewrite(table, n, e, images, stages, out)?;
    match purpose {
        Purpose::Rewrite => Ok(made),
        Purpose::GoThrough => own_conditions::put_behind(out, made, e),
    }
}

// A pass over the first n nodes of a table for each edit of the sheet, the last one first. Gives how many nodes it has then, unless it is too long
// after some edit.
fn passes(
    purpose: Purpose,
    sheet: &[u8],
    edition: u32,
    n: usize,
    table: &mut [u8; TABLE_BYTES],
    spare: &mut [u8; TABLE_BYTES],
    images: &mut [u16; TABLE_NODES],
    stages: &mut [Stage; TABLE_NODES],
) -> Result<usize, TooLong>
    requires count { (0 < n) × (n ≤ table_nodes) }
    requires fits { nodes_fit 0 (nodes table.old n) ≡ true }
    requires legal { sheet_legal (edits_of edition sheet.now) ≡ true }
    ensures { Passed (pass_of purpose) (edits_of edition sheet.now) (nodes table.old n) table.new result }
{
    let mut count = n;
    for k in (0..sheet.len() / 4).rev() {
        let e = sheet::edit_at(sheet, edition, k);
        count = pass(purpose, table, count, e, images, stages, spare)?;
        let bytes = NODE_BYTES * count;
        table[..bytes].copy_from_slice(&spare[..bytes]);
    }
    Ok(count)
}

// The answer after all edits: a table of so many nodes, copied into result with zeros after it; or zeros alone where it is too long.
fn finish(res: &mut [u8], work: &[u8; TABLE_BYTES], made: usize) -> Result<u32, Refusal>
    requires { (length res.old ≡ table_bytes) × (length work.now ≡ table_bytes) }
    ensures { Finished work.now made res.old res.new (outcome result) (nodes_of result) }
{
    if TABLE_NODES < made {
        buffer::zero(res);
        return Err(Refusal::TableFull);
    }
    copy(res, work, NODE_BYTES * made);
    clear_from(res, NODE_BYTES * made);
    Ok(made as u32)
}

// The passes of a sheet over a table, and the answer.
fn rewrite_from(
    purpose: Purpose,
    table: &[u8],
    sheet: &[u8],
    edition: u32,
    res: &mut [u8],
) -> Result<u32, Refusal>
    requires in_bounds { (6 ≤ length table.now) × (length table.now ≤ table_bytes) × (length res.old ≡ table_bytes) }
    requires table_value { (nodes_fit 0 (table_of table.now) ≡ true) × (sheet_legal (edits_of edition sheet.now) ≡ true) }
    ensures { Rewrote (pass_of purpose) (edits_of edition sheet.now) (table_of table.now) res.old res.new (outcome result) (nodes_of result) }
{
    let mut work = [0; TABLE_BYTES];
    let mut spare = [0; TABLE_BYTES];
    let mut images = [0; TABLE_NODES];
    let mut stages = [Stage::ToCopy; TABLE_NODES];
    work[..table.len()].copy_from_slice(table);
    let n = table.len() / NODE_BYTES;
    match passes(
        purpose,
        sheet,
        edition,
        n,
        &mut work,
        &mut spare,
        &mut images,
        &mut stages,
    ) {
        Ok(made) => finish(res, &work, made),
        Err(TooLong(made)) => finish(res, &work, made),
    }
}

// A table rewritten for a sheet: its bytes and then zeros in result, and zeros alone where item 14 is met. Gives how many nodes it has.
pub fn rewrite_sheet(
    table: &[u8],
    sheet: &[u8],
    edition: u32,
    res: &mut [u8],
) -> Result<u32, Refusal>
    requires in_bounds { (6 ≤ length table.now) × (length table.now ≤ table_bytes) × (length res.old ≡ table_bytes) }
    requires table_value { (nodes_fit 0 (table_of table.now) ≡ true) × (sheet_legal (edits_of edition sheet.now) ≡ true) }
    ensures { Rewrote rewrite_table (edits_of edition sheet.now) (table_of table.now) res.old res.new (outcome result) (nodes_of result) }
{
    rewrite_from(Purpose::Rewrite, table, sheet, edition, res)
}

// The one node true.
fn one_true() -> [u8; NODE_BYTES]
    ensures { result ≡ replicate node_size 0 }
{
    [0; NODE_BYTES]
}

// The condition for going through: its bytes and then zeros in result, and zeros alone where item 14 is met. Gives how many nodes it has.
pub fn through_sheet(sheet: &[u8], edition: u32, res: &mut [u8]) -> Result<u32, Refusal>
    requires { (length res.old ≡ table_bytes) × (sheet_legal (edits_of edition sheet.now) ≡ true) }
    ensures { Rewrote through_edit (edits_of edition sheet.now) one_true res.old res.new (outcome result) (nodes_of result) }
{
    let start = one_true();
    rewrite_from(Purpose::GoThrough, &start, sheet, edition, res)
}
