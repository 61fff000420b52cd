// The second pass: each block is written where the first pass put it, by recursion on children.

ghost use Rattle.std.specs.Prelude.{◌≡◌, true, false, None, ◌+◌, ◌-◌, ◌*◌, ◌≤◌, ◌<◌, ℕ, length, get_or, max};
ghost use Rattle.semantics.specs.Edit.{legal};
ghost use Rattle.semantics.specs.Table.{node_fits};
ghost use Rattle.semantics.specs.Block.{rewrite_table};
ghost use Rattle.condition.specs.Bytes.{node_at, nodes};
ghost use Rattle.sheet.specs.Bytes.{edit_of};
ghost use Rattle.limits.specs.Limits.{table_nodes};
ghost use Rattle.blocks.specs.Write.{TableWritten};
ghost use Rattle.spelling.specs.Spelling.{Spells};
ghost use Rattle.emitting.specs.State.{Numbered, start_in, start_of, BlockWritten, waits_at, NoneEmitted, Emittable, Emitting, Deep, ChildrenEmitted, OneEmitted};

use crate::Stage;
use blocks::{Node, put_node, write};
use condition::{kind, left, param, right};
use limits::{TABLE_BYTES, TABLE_NODES};
use sheet::Op;
use spelling::spell;

// A table of so many nodes, the edit, and the images of the nodes: the number of the last node of each block.
#[derive(Clone, Copy)]
pub(crate) struct Plan<'a> {
    pub table: &'a [u8; TABLE_BYTES],
    pub images: &'a [u16; TABLE_NODES],
    pub edit: Op,
    pub nodes: usize,
    ghost legal: { legal (edit_of edit) ≡ true },
    ghost fits: { (j : ℕ) → j < nodes → node_fits j (node_at table.now j) ≡ true },
    ghost numbered: { Numbered table.now (edit_of edit) images.now nodes },
}

impl<'a> Plan<'a> {
    // The number of the first node of node c's block: the one after the image before it.
    fn start(&self, c: usize) -> usize
        requires { c < self.now.nodes }
        ensures { result ≡ start_in self.now.images.now c }
    {
        if c == 0 {
            return 0;
        }
        usize::from(self.images[c - 1]) + 1
    }

    // The nodes in node c's fields for children.
    fn children(&self, c: usize) -> (usize, usize)
        requires { c < self.now.nodes }
        ensures fields { (result.0 ≡ (node_at self.now.table.now c).left) × (result.1 ≡ (node_at self.now.table.now c).right) }
        ensures low { (result.0 ≤ c - 1) × (result.1 ≤ c - 1) }
    {
        let table = self.table;
        (left(table, c), right(table, c))
    }

    // Writes the block of node c, whose fields for children are l and r, as this stage has it.
    fn write_block(&self, out: &mut [u8; TABLE_BYTES], stage: Stage, c: usize, l: usize, r: usize)
        requires below { c < self.now.nodes }
        requires fields { (l ≡ (node_at self.now.table.now c).left) × (r ≡ (node_at self.now.table.now c).right) }
        requires low { (l ≤ c - 1) × (r ≤ c - 1) }
        requires copy { stage ≡ Stage.ToCopy → Spells (edit_of self.now.edit) (node_at self.now.table.now c).kind (node_at self.now.table.now c).param None }
        requires room { 6 * start_of (edit_of self.now.edit) self.now.table.now (c + 1) ≤ length out.old }
        ensures { BlockWritten self.now.table.now (edit_of self.now.edit) c out.old out.new }
    {
        let (table, images) = (self.table, self.images);
        let node = Node {
            kind: kind(table, c),
            param: param(table, c),
            left: images[l],
            right: images[r],
        };
        match stage {
            Stage::ToCopy => put_node(out, usize::from(images[c]), node.copied()),
            _ => {
                let spelling = spell(self.edit, node.kind, node.param);
                write(out, self.start(c), spelling, node);
            }
        }
    }

    // Node c is emitted: its block is written. Gives whether one of its children waits. A field that the node's kind does not use is 0, and is
    // taken for a child here and in `emit_under`: a node that is emitted early is emitted right. Put in place at its calls, which is measured faster.
    #[inline(always)]
    fn emit(&self, stages: &mut [Stage; TABLE_NODES], out: &mut [u8; TABLE_BYTES], c: usize) -> bool
        requires below { c < self.now.nodes }
        requires emittable { Emittable self.now.table.now (edit_of self.now.edit) stages.old out.old self.now.nodes }
        ensures emitting { Emitting self.now.table.now (edit_of self.now.edit) stages.old out.old stages.new out.new }
        ensures emitted { waits_at stages.new c ≡ false }
        ensures one { OneEmitted self.now.table.now stages.old stages.new c result }
    {
        let stage = stages[c];
        if !stage.waits() {
            return false;
        }
        stages[c] = Stage::Emitted;
        let (l, r) = self.children(c);
        self.write_block(out, stage, c, l, r);
        stages[l].waits() | stages[r].waits()
    }

    // Nodes l and r, the children of a node, are emitted, and then what is below them. What is below the higher one comes first: what it shares
    // with the lower one is emitted by then, so that the calls stay shallow.
    #[cycle(emit_children_emit_under)]
    fn emit_children(
        &self,
        stages: &mut [Stage; TABLE_NODES],
        out: &mut [u8; TABLE_BYTES],
        l: usize,
        r: usize,
    )
        requires below { max l r < self.now.nodes }
        requires emittable { Emittable self.now.table.now (edit_of self.now.edit) stages.old out.old self.now.nodes }
        ensures emitting { Emitting self.now.table.now (edit_of self.now.edit) stages.old out.old stages.new out.new }
        ensures emitted { (waits_at stages.new l ≡ false) × (waits_at stages.new r ≡ false) }
        ensures deep { Deep self.now.table.now stages.old stages.new }
    {
        let lower = l.min(r);
        let higher = l.max(r);
        let under_lower = self.emit(stages, out, lower);
        let under_higher = self.emit(stages, out, higher);
        match (under_lower, under_higher) {
            (false, false) => {}
            (false, true) => self.emit_under(stages, out, higher),
            (true, false) => self.emit_under(stages, out, lower),
            (true, true) => {
                self.emit_under(stages, out, higher);
                self.emit_under(stages, out, lower);
            }
        }
    }

    // What is below node i is emitted.
    #[cycle(emit_children_emit_under)]
    fn emit_under(&self, stages: &mut [Stage; TABLE_NODES], out: &mut [u8; TABLE_BYTES], i: usize)
        requires below { (0 < i) × (i < self.now.nodes) }
        requires emittable { Emittable self.now.table.now (edit_of self.now.edit) stages.old out.old self.now.nodes }
        ensures emitting { Emitting self.now.table.now (edit_of self.now.edit) stages.old out.old stages.new out.new }
        ensures deep { Deep self.now.table.now stages.old stages.new }
        ensures children { ChildrenEmitted self.now.table.now stages.new i }
    {
        let (l, r) = self.children(i);
        self.emit_children(stages, out, l, r);
    }

    // Node i, unless it is emitted already, and what is below it are emitted.
    fn emit_open(&self, stages: &mut [Stage; TABLE_NODES], out: &mut [u8; TABLE_BYTES], i: usize)
        requires below { i < self.now.nodes }
        requires emittable { Emittable self.now.table.now (edit_of self.now.edit) stages.old out.old self.now.nodes }
        ensures emitting { Emitting self.now.table.now (edit_of self.now.edit) stages.old out.old stages.new out.new }
        ensures emitted { waits_at stages.new i ≡ false }
        ensures deep { Deep self.now.table.now stages.old stages.new }
    {
        let under = self.emit(stages, out, i);
        if under {
            self.emit_under(stages, out, i);
        }
    }

    // Each node and what is below it, from the last node down, so that nodes which no higher node reaches are emitted too.
    pub fn emit_all(&self, stages: &mut [Stage; TABLE_NODES], out: &mut [u8; TABLE_BYTES])
        requires emittable { Emittable self.now.table.now (edit_of self.now.edit) stages.old out.old self.now.nodes }
        requires none { NoneEmitted stages.old self.now.nodes }
        ensures { TableWritten out.new (rewrite_table (edit_of self.now.edit) (nodes self.now.table.now self.now.nodes)) }
    {
        for i in (0..self.nodes).rev() {
            self.emit_open(stages, out, i);
        }
    }
}
