// A node with its fields, and its bytes in a table.

ghost use Rattle.std.specs.Prelude.{◌≡◌, ◌+◌, ◌*◌, ◌≤◌, ◌<◌, length, ℕ, [], ◌∷◌, ◌&&◌, nat_le, nat_lt, if◌then◌else◌};
ghost use Rattle.limits.specs.Limits.{not_no, dia_no};
ghost use Rattle.semantics.specs.Table.{kind_of, node};
ghost use Rattle.semantics.specs.Block.{old, emit};
ghost use Rattle.condition.specs.Bytes.{node_bytes};
ghost use Rattle.spelling.specs.Rows.{copied};
ghost use Rattle.blocks.specs.Node.{meant};
ghost use Rattle.blocks.specs.Write.{put};

use limits::{DIA, NODE_BYTES, NOT, OR, SLOT};

#[derive(Clone, Copy, PartialEq, Eq, Debug)]
pub struct Node {
    pub kind: u8,
    pub param: u8,
    pub left: u16,
    pub right: u16,
}

impl Node {
    pub fn leaf(kind: u8, param: u8) -> Node
        ensures { meant result ≡ node kind param 0 0 }
    {
        Node {
            kind,
            param,
            left: 0,
            right: 0,
        }
    }

    // A node over one child, and one over two.
    pub fn over(kind: u8, param: u8, child: usize) -> Node
        requires { child < 65536 }
        ensures { meant result ≡ node kind param child 0 }
    {
        Node {
            kind,
            param,
            left: child as u16,
            right: 0,
        }
    }

    pub fn over_both(kind: u8, left: usize, right: usize) -> Node
        requires { (left < 65536) × (right < 65536) }
        ensures { meant result ≡ node kind 0 left right }
    {
        Node {
            kind,
            param: 0,
            left: left as u16,
            right: right as u16,
        }
    }

    // The copy of a node: the same, with 0 in the fields that its kind does not use. A kind above the last is read as the last. The children are
    // their images already.
    pub fn copied(self) -> Node
        ensures { (at : ℕ) → emit (copied (kind_of self.kind) self.param (old self.left) (old self.right)) at ≡ meant result ∷ [] }
    {
        Node {
            kind: self.kind.min(SLOT),
            param: own_number(self.kind, self.param),
            left: used(self.kind, NOT, SLOT, self.left),
            right: used(self.kind, OR, DIA, self.right),
        }
    }

    #[tactic(auto, unfolding(condition::specs::Bytes::node_bytes))]
    fn to_bytes(self) -> [u8; NODE_BYTES]
        ensures { result ≡ node_bytes (meant self) }
    {
        let Node {
            kind,
            param,
            left,
            right,
        } = self;
        let [left_low, left_high] = left.to_le_bytes();
        let [right_low, right_high] = right.to_le_bytes();
        [kind, param, left_low, left_high, right_low, right_high]
    }
}

// The parameter, which not, or and and do not use.
fn own_number(kind: u8, param: u8) -> u8
    ensures { result ≡ (if nat_le not_no kind && nat_lt kind dia_no then 0 else param) }
{
    if (NOT..DIA).contains(&kind) { 0 } else { param }
}

// A field that the kinds from `first` to below `end` use.
fn used(kind: u8, first: u8, end: u8, field: u16) -> u16
    ensures { result ≡ (if nat_le first kind && nat_lt kind end then field else 0) }
{
    if (first..end).contains(&kind) {
        field
    } else {
        0
    }
}

// Writes one node at number i.
pub fn put_node(out: &mut [u8], i: usize, node: Node)
    requires { 6 * i + 6 ≤ length out.old }
    ensures { out.new ≡ put out.old i (meant node) }
{
    let at = NODE_BYTES * i;
    out[at..at + NODE_BYTES].copy_from_slice(&node.to_bytes());
}
