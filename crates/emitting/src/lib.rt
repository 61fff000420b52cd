// A table of nodes rewritten through one edit: a first pass gives each block its number, a second writes the blocks, by recursion on children.
// docs/SPEC.md, "Rewriting".
#![tactic(auto)]

ghost use Rattle.std.specs.Prelude.{◌≡◌, true, false, ◌&&◌, ◌+◌, ◌*◌, ◌≤◌, ◌<◌, length};
ghost use Rattle.semantics.specs.Edit.{legal};
ghost use Rattle.semantics.specs.Table.{nodes_fit};
ghost use Rattle.semantics.specs.Block.{rewrite_table};
ghost use Rattle.condition.specs.Bytes.{nodes};
ghost use Rattle.sheet.specs.Bytes.{edit_of};
ghost use Rattle.limits.specs.Limits.{table_nodes, kinds};
ghost use Rattle.blocks.specs.Write.{Made};
ghost use Rattle.emitting.specs.State.{Numbering, Planned, first_kind, end_kind, waits};

mod plan;

use blocks::{TooLong, size};
use condition::{kind, param};
use limits::{DIA, HERE, LABEL, MU, NAME, TABLE_BYTES, TABLE_NODES, VAR};
use plan::Plan;
use sheet::Op;
use spelling::spell;
use std::ops::Range;

// A node is to be copied, or to be rewritten by a row; or its block is written already.
#[derive(Clone, Copy, PartialEq, Eq, Debug)]
pub enum Stage {
    ToCopy,
    ToRewrite,
    Emitted,
}

impl Stage {
    fn waits(self) -> bool
        ensures { result ≡ waits self }
    {
        self != Stage::Emitted
    }
}

// An edit changes nodes of these kinds at most.
fn kinds_changed(e: Op) -> Range<u8>
    ensures { (result.start ≡ first_kind (edit_of e)) × (result.end ≡ end_kind (edit_of e)) }
{
    match e {
        Op::Cn1(..) | Op::Cn2(..) => NAME..VAR,
        Op::Ap(..) | Op::Dp(..) => LABEL..NAME,
        Op::At(..) | Op::Dt1(..) | Op::Dt2(..) | Op::Rt(..) => DIA..MU,
        Op::As(..) => HERE..VAR,
        Op::Ds(..) => HERE..MU,
    }
}

// What is planned for a node of this kind and parameter, and how many nodes its block has.
fn plan_node(e: Op, changed: &Range<u8>, kind: u8, param: u8) -> (Stage, usize)
    requires legal { legal (edit_of e) ≡ true }
    requires changed { (changed.now.start ≡ first_kind (edit_of e)) × (changed.now.end ≡ end_kind (edit_of e)) }
    requires known { kind < kinds }
    ensures { Planned (edit_of e) kind param result.0 result.1 }
{
    if !changed.contains(&kind) {
        return (Stage::ToCopy, 1);
    }
    match spell(e, kind, param) {
        None => (Stage::ToCopy, 1),
        spelling => (Stage::ToRewrite, size(spelling)),
    }
}

// The first pass: the stages and the images of the first n nodes. Gives how many nodes the blocks have.
fn number(
    table: &[u8; TABLE_BYTES],
    n: usize,
    e: Op,
    images: &mut [u16; TABLE_NODES],
    stages: &mut [Stage; TABLE_NODES],
) -> usize
    requires below { n ≤ table_nodes }
    requires legal { legal (edit_of e) ≡ true }
    requires fits { nodes_fit 0 (nodes table.now n) ≡ true }
    ensures { Numbering table.now (edit_of e) images.new stages.new n result }
{
    let changed = kinds_changed(e);
    let mut next = 0;
    for i in 0..n {
        let (stage, size) = plan_node(e, &changed, kind(table, i), param(table, i));
        next += size;
        stages[i] = stage;
        images[i] = (next - 1) as u16;
    }
    next
}

// The first n nodes of a table, rewritten for one edit. Gives how many nodes that makes. They are written unless they are too many for a table.
pub fn rewrite(
    table: &[u8; TABLE_BYTES],
    n: usize,
    e: Op,
    images: &mut [u16; TABLE_NODES],
    stages: &mut [Stage; TABLE_NODES],
    out: &mut [u8; TABLE_BYTES],
) -> Result<usize, TooLong>
    requires below { n ≤ table_nodes }
    requires legal { legal (edit_of e) ≡ true }
    requires fits { nodes_fit 0 (nodes table.now n) ≡ true }
    ensures { Made (rewrite_table (edit_of e) (nodes table.now n)) out.new result }
{
    let made = number(table, n, e, images, stages);
    if TABLE_NODES < made {
        return Err(TooLong(made));
    }
    let plan = Plan {
        table,
        images,
        edit: e,
        nodes: n,
    };
    plan.emit_all(stages, out);
    Ok(made)
}
