// Blocks by their spellings: how many nodes one has, and its nodes written into a table. docs/SPEC.md, "Rewriting".
#![tactic(auto)]

ghost use Rattle.std.specs.Prelude.{◌≡◌, ◌+◌, ◌*◌, ◌≤◌, ◌<◌, length};
ghost use Rattle.semantics.specs.Block.{size, emit};
ghost use Rattle.spelling.specs.Spelling.{row_spelled, spelled, Sized};
ghost use Rattle.blocks.specs.Write.{puts};

mod nodes;
mod steps;

pub use nodes::{Node, put_node};
use spelling::Spelling;
use steps::{numbers, steps_of};

// A table would have so many nodes, which are more than fit into it.
#[derive(Clone, Copy, PartialEq, Eq, Debug)]
pub struct TooLong(pub usize);

// How many nodes the block has, whatever the node and the numbers that it refers to.
#[tactic(auto, using(crate::proofs::Laws::Rows::sized_copy, crate::proofs::Laws::Rows::sized_row))]
pub fn size(spelling: Option<Spelling>) -> usize
    ensures { Sized spelling result }
{
    match spelling {
        None => 1,
        Some(spelling) => steps_of(spelling.row).len(),
    }
}

// Writes the block of a row from number `at` on, for an old node with parameter `own`, whose left child has this image.
fn write_row(out: &mut [u8], at: usize, spelling: Spelling, own: u8, image: u16)
    requires numbers { at < 60000 }
    requires room { 6 * (at + size (row_spelled spelling own image)) ≤ length out.old }
    ensures { out.new ≡ puts out.old at 0 (emit (row_spelled spelling own image) at) }
{
    let numbers = numbers(spelling, own);
    let steps = steps_of(spelling.row);
    for (place, step) in steps.iter().enumerate() {
        put_node(out, at + place, step.node(&numbers, at, image));
    }
}

// Writes the block of a node from number `at` on; the children of the node are their images already.
pub fn write(out: &mut [u8], at: usize, spelling: Option<Spelling>, node: Node)
    requires numbers { at < 60000 }
    requires room { 6 * (at + size (spelled spelling node.kind node.param node.left node.right)) ≤ length out.old }
    ensures { out.new ≡ puts out.old at 0 (emit (spelled spelling node.kind node.param node.left node.right) at) }
{
    match spelling {
        None => put_node(out, at, node.copied()),
        Some(spelling) => write_row(out, at, spelling, node.param, node.left),
    }
}
