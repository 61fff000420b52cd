// An edit's own condition and the closing "and", put behind a table. docs/SPEC.md, "The condition for going through".
#![tactic(auto)]

ghost use Rattle.std.specs.Prelude.{◌≡◌, ◌+◌, ◌≤◌, ◌<◌, length};
ghost use Rattle.std.proofs.Math.Option.{some};
ghost use Rattle.semantics.specs.Edit.{AT};
ghost use Rattle.semantics.specs.Block.{size, emit};
ghost use Rattle.through.specs.Through.{neither_nil, free_or_there, own, closing};
ghost use Rattle.limits.specs.Limits.{table_nodes, table_bytes};
ghost use Rattle.semantics.specs.Table.{node};
ghost use Rattle.sheet.specs.Bytes.{edit_of};
ghost use Rattle.blocks.specs.Node.{meant};
ghost use Rattle.blocks.specs.Write.{puts};
ghost use Rattle.own_conditions.specs.Nodes.{nowhere_nodes, reaches_nodes};
ghost use Rattle.own_conditions.specs.Condition.{meaning, meanings};
ghost use Rattle.own_conditions.specs.Behind.{PutBehind};

use blocks::{Node, TooLong, put_node};
use limits::{AND, DIA, EVERY, HERE, NAME, NOT, OR, SLOT, TABLE_NODES, TRUE};
use sheet::Op;

// An edit's own condition: a slot is absent; a name is not at nil; neither of two names is; or, besides, the functional link from the first of
// them leads to no slot, or to the second.
#[derive(Clone, Copy, PartialEq, Eq, Debug)]
enum Condition {
    Absent(u8),
    NotNil(u8),
    NeitherNil(u8, u8),
    FreeOrThere(u8, u8, u8),
}

impl Condition {
    // The one of AT.
    #[tactic(auto, unfolding(through::specs::Through::own))]
    fn of_link(m: u8, n1: u8, n2: u8) -> Condition
        ensures { some (meaning result) ≡ own (AT m n1 n2) }
    {
        if sheet::is_functional(m) {
            return Condition::FreeOrThere(m, n1, n2);
        }
        Condition::NeitherNil(n1, n2)
    }

    // The one of an edit that does not always go through.
    #[tactic(auto, unfolding(through::specs::Through::own))]
    fn of(e: Op) -> Option<Condition>
        ensures { meanings result ≡ own (edit_of e) }
    {
        match e {
            Op::At(m, n1, n2) => Some(Condition::of_link(m, n1, n2)),
            Op::Rt(_, n1, n2) => Some(Condition::NeitherNil(n1, n2)),
            Op::As(_, slot) => Some(Condition::Absent(slot)),
            Op::Ds(n) => Some(Condition::NotNil(n)),
            Op::Cn1(..) | Op::Cn2(..) | Op::Ap(..) | Op::Dp(..) | Op::Dt1(..) | Op::Dt2(..) => None,
        }
    }

    // How many nodes it has.
    #[tactic(auto, unfolding(semantics::specs::Block::size))]
    fn nodes(self) -> usize
        ensures { (result ≡ size (meaning self)) × (result ≤ 24) × (0 < result) }
    {
        match self {
            Condition::Absent(..) | Condition::NotNil(..) => 5,
            Condition::NeitherNil(..) => 11,
            Condition::FreeOrThere(..) => 24,
        }
    }

    // Writes it from number `at` on.
    #[tactic(auto, unfolding(semantics::specs::Block::size))]
    fn put(self, out: &mut [u8], at: usize)
        requires whole { length out.old ≡ table_bytes }
        requires room { at + size (meaning self) ≤ table_nodes }
        ensures { out.new ≡ puts out.old at 0 (emit (meaning self) at) }
    {
        match self {
            Condition::Absent(slot) => put_nowhere(
                out,
                at,
                Node::leaf(HERE, 0),
                Node::leaf(SLOT, slot),
            ),
            Condition::NotNil(n) => put_nowhere(out, at, Node::leaf(NAME, n), Node::leaf(NAME, 0)),
            Condition::NeitherNil(n1, n2) => put_neither_nil(out, at, n1, n2),
            Condition::FreeOrThere(m, n1, n2) => {
                put_neither_nil(out, at, n1, n2);
                put_free_or_there(out, at + 11, m, n1, n2);
                put_node(out, at + 23, Node::over_both(AND, at + 10, at + 22));
            }
        }
    }
}

// No slot is in both of two leaves: x y & <E> !, five nodes from number `at` on.
fn put_nowhere(out: &mut [u8], at: usize, x: Node, y: Node)
    requires whole { length out.old ≡ table_bytes }
    requires room { at + 5 ≤ table_nodes }
    ensures { out.new ≡ puts out.old at 0 (nowhere_nodes at (meant x) (meant y)) }
{
    put_node(out, at, x);
    put_node(out, at + 1, y);
    put_node(out, at + 2, Node::over_both(AND, at, at + 1));
    put_node(out, at + 3, Node::over(DIA, EVERY, at + 2));
    put_node(out, at + 4, Node::over(NOT, 0, at + 3));
}

// Link m leads from @n to a slot of a leaf: n y <m> & <E>, five nodes from number `at` on.
fn put_reaches(out: &mut [u8], at: usize, n: u8, m: u8, y: Node)
    requires whole { length out.old ≡ table_bytes }
    requires room { at + 5 ≤ table_nodes }
    ensures { out.new ≡ puts out.old at 0 (reaches_nodes at n m (meant y)) }
{
    put_node(out, at, Node::leaf(NAME, n));
    put_node(out, at + 1, y);
    put_node(out, at + 2, Node::over(DIA, m, at + 1));
    put_node(out, at + 3, Node::over_both(AND, at, at + 2));
    put_node(out, at + 4, Node::over(DIA, EVERY, at + 3));
}

// n1 nil & <E> ! n2 nil & <E> ! &
fn put_neither_nil(out: &mut [u8], at: usize, n1: u8, n2: u8)
    requires whole { length out.old ≡ table_bytes }
    requires room { at + 11 ≤ table_nodes }
    ensures { out.new ≡ puts out.old at 0 (emit (neither_nil n1 n2) at) }
{
    put_nowhere(out, at, Node::leaf(NAME, n1), Node::leaf(NAME, 0));
    put_nowhere(out, at + 5, Node::leaf(NAME, n2), Node::leaf(NAME, 0));
    put_node(out, at + 10, Node::over_both(AND, at + 4, at + 9));
}

// n1 t <m> & <E> ! n1 n2 <m> & <E> |
fn put_free_or_there(out: &mut [u8], at: usize, m: u8, n1: u8, n2: u8)
    requires whole { length out.old ≡ table_bytes }
    requires room { at + 12 ≤ table_nodes }
    ensures { out.new ≡ puts out.old at 0 (emit (free_or_there m n1 n2) at) }
{
    put_reaches(out, at, n1, m, Node::leaf(TRUE, 0));
    put_node(out, at + 5, Node::over(NOT, 0, at + 4));
    put_reaches(out, at + 6, n1, m, Node::leaf(NAME, n2));
    put_node(out, at + 11, Node::over_both(OR, at + 5, at + 10));
}

// Puts the edit's own condition, if it has one, and the closing "and" behind a table of n nodes. Gives how many nodes there are then.
pub fn put_behind(out: &mut [u8], n: usize, e: Op) -> Result<usize, TooLong>
    requires whole { length out.old ≡ table_bytes }
    requires some { 0 < n }
    ensures { PutBehind (closing n (own (edit_of e))) n out.old out.new result }
{
    if TABLE_NODES < n {
        return Err(TooLong(n));
    }
    let Some(condition) = Condition::of(e) else {
        return Ok(n);
    };
    let end = n + condition.nodes();
    let made = end + 1;
    if TABLE_NODES < made {
        return Err(TooLong(made));
    }
    condition.put(out, n);
    put_node(out, end, Node::over_both(AND, n - 1, end - 1));
    Ok(made)
}
