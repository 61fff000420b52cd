// The blocks of rows, step by step. docs/SPEC.md, "Rewriting".

ghost use Rattle.std.specs.Prelude.{◌≡◌, ◌+◌, ◌<◌, length, get_or};
ghost use Rattle.semantics.specs.Table.{Node};
ghost use Rattle.blocks.specs.Node.{meant};
ghost use Rattle.blocks.specs.Steps.{numbers_of, child_of, node_of, StepsOf};

use crate::nodes::Node;
use Child::{At, Image, Nothing};
use Number::{Everywhere, First, Own, ReverseOfSecond, Second, Zero};
use limits::{AND, BOX, DIA, EVERY, HERE, LABEL, LINKS, NAME, NOT, OR, SLOT, TRUE};
use spelling::{Row, Spelling};

// The parameter of a step's node: 0, the parameter of the old node, the first or the second number of the edit, the reverse of the link that is
// the second, or the way E.
#[derive(Clone, Copy, PartialEq, Eq, Debug)]
pub(crate) enum Number {
    Zero,
    Own,
    First,
    Second,
    ReverseOfSecond,
    Everywhere,
}

// A child of a step's node: none, the node at this place of the block, counted from 0, or the image of the old node's left child.
#[derive(Clone, Copy, PartialEq, Eq, Debug)]
pub(crate) enum Child {
    Nothing,
    At(u8),
    Image,
}

// How many numbers there are.
pub(crate) const NUMBERS: usize = 6;

// One node of a block: its kind, its parameter and its children.
#[derive(Clone, Copy, PartialEq, Eq, Debug)]
pub(crate) struct Step(pub u8, pub Number, pub Child, pub Child);

impl Child {
    // The number of the child, where the block begins with number `at` and T is `image`.
    fn in_block(self, at: usize, image: u16) -> u16
        requires { at < 60000 }
        ensures { result ≡ child_of at image self }
    {
        match self {
            Nothing => 0,
            At(place) => at as u16 + u16::from(place),
            Image => image,
        }
    }
}

impl Step {
    // The node of the step, where `numbers` has its parameter.
    pub fn node(&self, numbers: &[u8; NUMBERS], at: usize, image: u16) -> Node
        requires { at < 60000 }
        ensures { meant result ≡ node_of numbers.now at image self.now }
    {
        let Step(kind, number, left, right) = *self;
        Node {
            kind,
            param: numbers[number as usize],
            left: left.in_block(at, image),
            right: right.in_block(at, image),
        }
    }
}

// The numbers that steps refer to, in the order of `Number`: of a row in a block for a node with this parameter.
pub(crate) fn numbers(spelling: Spelling, own: u8) -> [u8; NUMBERS]
    ensures { result ≡ numbers_of spelling own }
{
    let Spelling {
        row: _,
        first,
        second,
    } = spelling;
    [0, own, first, second, second.wrapping_add(LINKS), EVERY]
}

// In the texts over the rows, w is the old node's parameter, which p, y and h are too; a and b are the numbers of the edit, @a is slot a, and T is
// the image of the old node's child.

// CN1, name n1: a
static CN1_NAME: [Step; 1] = [Step(NAME, First, Nothing, Nothing)];

// AS, name n: @a
static AS_NAME: [Step; 1] = [Step(SLOT, First, Nothing, Nothing)];

// CN2, name n1: a <b-> nil a t <b> & <E> ! & |
static CN2_NAME: [Step; 11] = [
    Step(NAME, First, Nothing, Nothing),
    Step(DIA, ReverseOfSecond, At(0), Nothing),
    Step(NAME, Zero, Nothing, Nothing),
    Step(NAME, First, Nothing, Nothing),
    Step(TRUE, Zero, Nothing, Nothing),
    Step(DIA, Second, At(4), Nothing),
    Step(AND, Zero, At(3), At(5)),
    Step(DIA, Everywhere, At(6), Nothing),
    Step(NOT, Zero, At(7), Nothing),
    Step(AND, Zero, At(2), At(8)),
    Step(OR, Zero, At(1), At(9)),
];

// AP, label p: p a nil ! & |
static AP_LABEL: [Step; 6] = [
    Step(LABEL, Own, Nothing, Nothing),
    Step(NAME, First, Nothing, Nothing),
    Step(NAME, Zero, Nothing, Nothing),
    Step(NOT, Zero, At(2), Nothing),
    Step(AND, Zero, At(1), At(3)),
    Step(OR, Zero, At(0), At(4)),
];

// DP and DS, label p: p a ! &
static DP_LABEL: [Step; 4] = [
    Step(LABEL, Own, Nothing, Nothing),
    Step(NAME, First, Nothing, Nothing),
    Step(NOT, Zero, At(1), Nothing),
    Step(AND, Zero, At(0), At(2)),
];

// AS, here: h @a |
static AS_HERE: [Step; 3] = [
    Step(HERE, Own, Nothing, Nothing),
    Step(SLOT, First, Nothing, Nothing),
    Step(OR, Zero, At(0), At(1)),
];

// DS, here: h a ! &
static DS_HERE: [Step; 4] = [
    Step(HERE, Own, Nothing, Nothing),
    Step(NAME, First, Nothing, Nothing),
    Step(NOT, Zero, At(1), Nothing),
    Step(AND, Zero, At(0), At(2)),
];

// DS, name y: y a ! & nil a y & <E> & |
static DS_NAME: [Step; 11] = [
    Step(NAME, Own, Nothing, Nothing),
    Step(NAME, First, Nothing, Nothing),
    Step(NOT, Zero, At(1), Nothing),
    Step(AND, Zero, At(0), At(2)),
    Step(NAME, Zero, Nothing, Nothing),
    Step(NAME, First, Nothing, Nothing),
    Step(NAME, Own, Nothing, Nothing),
    Step(AND, Zero, At(5), At(6)),
    Step(DIA, Everywhere, At(7), Nothing),
    Step(AND, Zero, At(4), At(8)),
    Step(OR, Zero, At(3), At(9)),
];

// AT <m>: T <w> a b T & <E> & |
static AT_DIAMOND: [Step; 7] = [
    Step(DIA, Own, Image, Nothing),
    Step(NAME, First, Nothing, Nothing),
    Step(NAME, Second, Nothing, Nothing),
    Step(AND, Zero, At(2), Image),
    Step(DIA, Everywhere, At(3), Nothing),
    Step(AND, Zero, At(1), At(4)),
    Step(OR, Zero, At(0), At(5)),
];

// AT [m]: T [w] a ! b ! T | [E] | &
static AT_BOX: [Step; 9] = [
    Step(BOX, Own, Image, Nothing),
    Step(NAME, First, Nothing, Nothing),
    Step(NOT, Zero, At(1), Nothing),
    Step(NAME, Second, Nothing, Nothing),
    Step(NOT, Zero, At(3), Nothing),
    Step(OR, Zero, At(4), Image),
    Step(BOX, Everywhere, At(5), Nothing),
    Step(OR, Zero, At(2), At(6)),
    Step(AND, Zero, At(0), At(7)),
];

// DT1 <m>: a ! T <w> & b ! T & <w> |
static DT1_DIAMOND: [Step; 9] = [
    Step(NAME, First, Nothing, Nothing),
    Step(NOT, Zero, At(0), Nothing),
    Step(DIA, Own, Image, Nothing),
    Step(AND, Zero, At(1), At(2)),
    Step(NAME, Second, Nothing, Nothing),
    Step(NOT, Zero, At(4), Nothing),
    Step(AND, Zero, At(5), Image),
    Step(DIA, Own, At(6), Nothing),
    Step(OR, Zero, At(3), At(7)),
];

// DT1 [m]: a T [w] | b T | [w] &
static DT1_BOX: [Step; 7] = [
    Step(NAME, First, Nothing, Nothing),
    Step(BOX, Own, Image, Nothing),
    Step(OR, Zero, At(0), At(1)),
    Step(NAME, Second, Nothing, Nothing),
    Step(OR, Zero, At(3), Image),
    Step(BOX, Own, At(4), Nothing),
    Step(AND, Zero, At(2), At(5)),
];

// DT2 <f>: a ! T <w> &
static DT2_DIAMOND: [Step; 4] = [
    Step(NAME, First, Nothing, Nothing),
    Step(NOT, Zero, At(0), Nothing),
    Step(DIA, Own, Image, Nothing),
    Step(AND, Zero, At(1), At(2)),
];

// DT2 [f]: a T [w] |
static DT2_BOX: [Step; 3] = [
    Step(NAME, First, Nothing, Nothing),
    Step(BOX, Own, Image, Nothing),
    Step(OR, Zero, At(0), At(1)),
];

// DT2 <f->: a ! T & <w>
static DT2_DIAMOND_BACK: [Step; 4] = [
    Step(NAME, First, Nothing, Nothing),
    Step(NOT, Zero, At(0), Nothing),
    Step(AND, Zero, At(1), Image),
    Step(DIA, Own, At(2), Nothing),
];

// DT2 [f-]: a T | [w]
static DT2_BOX_BACK: [Step; 3] = [
    Step(NAME, First, Nothing, Nothing),
    Step(OR, Zero, At(0), Image),
    Step(BOX, Own, At(1), Nothing),
];

// DS <w>: a ! a ! T & <w> &
static DS_DIAMOND: [Step; 7] = [
    Step(NAME, First, Nothing, Nothing),
    Step(NOT, Zero, At(0), Nothing),
    Step(NAME, First, Nothing, Nothing),
    Step(NOT, Zero, At(2), Nothing),
    Step(AND, Zero, At(3), Image),
    Step(DIA, Own, At(4), Nothing),
    Step(AND, Zero, At(1), At(5)),
];

// DS [w]: a a T | [w] |
static DS_BOX: [Step; 5] = [
    Step(NAME, First, Nothing, Nothing),
    Step(NAME, First, Nothing, Nothing),
    Step(OR, Zero, At(1), Image),
    Step(BOX, Own, At(2), Nothing),
    Step(OR, Zero, At(0), At(3)),
];

// RT <f>: a ! T <w> & a b T & <E> & |
static RT_DIAMOND: [Step; 10] = [
    Step(NAME, First, Nothing, Nothing),
    Step(NOT, Zero, At(0), Nothing),
    Step(DIA, Own, Image, Nothing),
    Step(AND, Zero, At(1), At(2)),
    Step(NAME, First, Nothing, Nothing),
    Step(NAME, Second, Nothing, Nothing),
    Step(AND, Zero, At(5), Image),
    Step(DIA, Everywhere, At(6), Nothing),
    Step(AND, Zero, At(4), At(7)),
    Step(OR, Zero, At(3), At(8)),
];

// RT [f]: a T [w] | a ! b ! T | [E] | &
static RT_BOX: [Step; 11] = [
    Step(NAME, First, Nothing, Nothing),
    Step(BOX, Own, Image, Nothing),
    Step(OR, Zero, At(0), At(1)),
    Step(NAME, First, Nothing, Nothing),
    Step(NOT, Zero, At(3), Nothing),
    Step(NAME, Second, Nothing, Nothing),
    Step(NOT, Zero, At(5), Nothing),
    Step(OR, Zero, At(6), Image),
    Step(BOX, Everywhere, At(7), Nothing),
    Step(OR, Zero, At(4), At(8)),
    Step(AND, Zero, At(2), At(9)),
];

// RT <f->: a ! T & <w> b a T & <E> & |
static RT_DIAMOND_BACK: [Step; 10] = [
    Step(NAME, First, Nothing, Nothing),
    Step(NOT, Zero, At(0), Nothing),
    Step(AND, Zero, At(1), Image),
    Step(DIA, Own, At(2), Nothing),
    Step(NAME, Second, Nothing, Nothing),
    Step(NAME, First, Nothing, Nothing),
    Step(AND, Zero, At(5), Image),
    Step(DIA, Everywhere, At(6), Nothing),
    Step(AND, Zero, At(4), At(7)),
    Step(OR, Zero, At(3), At(8)),
];

// RT [f-]: a T | [w] b ! a ! T | [E] | &
static RT_BOX_BACK: [Step; 11] = [
    Step(NAME, First, Nothing, Nothing),
    Step(OR, Zero, At(0), Image),
    Step(BOX, Own, At(1), Nothing),
    Step(NAME, Second, Nothing, Nothing),
    Step(NOT, Zero, At(3), Nothing),
    Step(NAME, First, Nothing, Nothing),
    Step(NOT, Zero, At(5), Nothing),
    Step(OR, Zero, At(6), Image),
    Step(BOX, Everywhere, At(7), Nothing),
    Step(OR, Zero, At(4), At(8)),
    Step(AND, Zero, At(2), At(9)),
];

// The steps of a row.
#[tactic(auto, using(crate::proofs::Laws::Rows::steps_right), unfolding(spelling::specs::Rows::row_block, semantics::specs::Block::emit, semantics::specs::Block::root, semantics::specs::Block::size, semantics::specs::Table::kind_no))]
pub(crate) fn steps_of(row: Row) -> &'static [Step]
    ensures { StepsOf row result.now }
{
    match row {
        Row::Cn1Name => &CN1_NAME,
        Row::AsName => &AS_NAME,
        Row::Cn2Name => &CN2_NAME,
        Row::ApLabel => &AP_LABEL,
        Row::DpLabel => &DP_LABEL,
        Row::AsHere => &AS_HERE,
        Row::DsHere => &DS_HERE,
        Row::DsName => &DS_NAME,
        Row::AtDiamond => &AT_DIAMOND,
        Row::AtBox => &AT_BOX,
        Row::Dt1Diamond => &DT1_DIAMOND,
        Row::Dt1Box => &DT1_BOX,
        Row::Dt2Diamond => &DT2_DIAMOND,
        Row::Dt2Box => &DT2_BOX,
        Row::Dt2DiamondBack => &DT2_DIAMOND_BACK,
        Row::Dt2BoxBack => &DT2_BOX_BACK,
        Row::DsDiamond => &DS_DIAMOND,
        Row::DsBox => &DS_BOX,
        Row::RtDiamond => &RT_DIAMOND,
        Row::RtBox => &RT_BOX,
        Row::RtDiamondBack => &RT_DIAMOND_BACK,
        Row::RtBoxBack => &RT_BOX_BACK,
    }
}
