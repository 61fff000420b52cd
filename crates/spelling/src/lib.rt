// How the block of a node through an edit is spelled: the node is copied, or a row gives its block. docs/SPEC.md, "Rewriting".
#![tactic(auto)]

ghost use Rattle.std.specs.Prelude.{◌≡◌, ◌==◌, true, ◌&&◌, None, ◌<◌};
ghost use Rattle.limits.specs.Limits.{links};
ghost use Rattle.semantics.specs.Edit.{AS, DS, legal};
ghost use Rattle.semantics.specs.Table.{way_of};
ghost use Rattle.sheet.specs.Bytes.{edit_of};
ghost use Rattle.spelling.specs.Spelling.{by_row, modal_spelling, Spells, on_way};

use limits::{BOX, DIA, EVERY, HERE, LABEL, LINKS, NAME};
use sheet::Op;

// The blocks that are no copies, named for the edit and for the node that it replaces. `Back` is the reverse of a link, where the block is another
// than along the link by more than the order of its two numbers.
#[derive(Clone, Copy, PartialEq, Eq, Debug)]
pub enum Row {
    Cn1Name,
    AsName,
    Cn2Name,
    ApLabel,
    DpLabel,
    AsHere,
    DsHere,
    DsName,
    AtDiamond,
    AtBox,
    Dt1Diamond,
    Dt1Box,
    Dt2Diamond,
    Dt2Box,
    Dt2DiamondBack,
    Dt2BoxBack,
    DsDiamond,
    DsBox,
    RtDiamond,
    RtBox,
    RtDiamondBack,
    RtBoxBack,
}

impl Row {
    fn with(self, first: u8, second: u8) -> Spelling
        ensures { result ≡ by_row self first second }
    {
        Spelling {
            row: self,
            first,
            second,
        }
    }
}

// A row, and the two numbers of the edit that it refers to.
#[derive(Clone, Copy, PartialEq, Eq, Debug)]
pub struct Spelling {
    pub row: Row,
    pub first: u8,
    pub second: u8,
}

// A node is the leaf that an edit changes.
fn is_leaf(kind: u8, param: u8, leaf: u8, number: u8) -> bool
    ensures { result ≡ (kind == leaf && param == number) }
{
    (kind == leaf) & (param == number)
}

// The rows of a diamond and of a box, and the two numbers of the edit that they refer to.
#[derive(Clone, Copy, PartialEq, Eq, Debug)]
struct Modal(Row, Row, u8, u8);

impl Modal {
    // None for a node of another kind.
    fn spelling(self, kind: u8) -> Option<Spelling>
        ensures { result ≡ modal_spelling self kind }
    {
        let Modal(diamond, boxed, first, second) = self;
        match kind {
            DIA => Some(diamond.with(first, second)),
            BOX => Some(boxed.with(first, second)),
            _ => None,
        }
    }
}

// The spelling of a node with a way along the link, that of one with a way against it, and none for other ways.
#[tactic(auto, using(crate::proofs::Laws::Spelling::on_link, crate::proofs::Laws::Spelling::on_reverse, crate::proofs::Laws::Spelling::on_other))]
fn by_way(kind: u8, way: u8, link: u8, along: Modal, against: Modal) -> Option<Spelling>
    requires { link < links }
    ensures { result ≡ on_way (way_of way) link (modal_spelling along kind) (modal_spelling against kind) None }
{
    if way == link {
        return along.spelling(kind);
    }
    if way == link + LINKS {
        return against.spelling(kind);
    }
    None
}

// The spelling for AS.
fn for_new_slot(kind: u8, param: u8, n: u8, slot: u8) -> Option<Spelling>
    ensures { Spells (AS n slot) kind param result }
{
    match kind {
        HERE => Some(Row::AsHere.with(slot, 0)),
        _ => is_leaf(kind, param, NAME, n).then_some(Row::AsName.with(slot, 0)),
    }
}

// The spelling for DS.
fn for_slot_gone(kind: u8, param: u8, n: u8) -> Option<Spelling>
    ensures { Spells (DS n) kind param result }
{
    match kind {
        HERE => Some(Row::DsHere.with(n, 0)),
        LABEL => Some(Row::DpLabel.with(n, 0)),
        NAME => (param != 0).then_some(Row::DsName.with(n, 0)),
        DIA => (param < EVERY).then_some(Row::DsDiamond.with(n, 0)),
        BOX => (param < EVERY).then_some(Row::DsBox.with(n, 0)),
        _ => None,
    }
}

// The spelling of the block of a node with this kind and parameter, whatever its children; none where the node is copied. Put in place at both of its
// calls: rewriting takes a fifth longer with a call for each node.
#[inline(always)]
pub fn spell(e: Op, kind: u8, param: u8) -> Option<Spelling>
    requires { legal (edit_of e) ≡ true }
    ensures { Spells (edit_of e) kind param result }
{
    match e {
        Op::Cn1(n1, n2) => is_leaf(kind, param, NAME, n1).then_some(Row::Cn1Name.with(n2, 0)),
        Op::Cn2(n1, n2, f) => is_leaf(kind, param, NAME, n1).then_some(Row::Cn2Name.with(n2, f)),
        Op::Ap(n, p) => is_leaf(kind, param, LABEL, p).then_some(Row::ApLabel.with(n, 0)),
        Op::Dp(n, p) => is_leaf(kind, param, LABEL, p).then_some(Row::DpLabel.with(n, 0)),
        Op::At(m, n1, n2) => by_way(
            kind,
            param,
            m,
            Modal(Row::AtDiamond, Row::AtBox, n1, n2),
            Modal(Row::AtDiamond, Row::AtBox, n2, n1),
        ),
        Op::Dt1(m, n1, n2) => by_way(
            kind,
            param,
            m,
            Modal(Row::Dt1Diamond, Row::Dt1Box, n1, n2),
            Modal(Row::Dt1Diamond, Row::Dt1Box, n2, n1),
        ),
        Op::Dt2(f, n) => by_way(
            kind,
            param,
            f,
            Modal(Row::Dt2Diamond, Row::Dt2Box, n, 0),
            Modal(Row::Dt2DiamondBack, Row::Dt2BoxBack, n, 0),
        ),
        Op::As(n, slot) => for_new_slot(kind, param, n, slot),
        Op::Ds(n) => for_slot_gone(kind, param, n),
        Op::Rt(f, n1, n2) => by_way(
            kind,
            param,
            f,
            Modal(Row::RtDiamond, Row::RtBox, n1, n2),
            Modal(Row::RtDiamondBack, Row::RtBoxBack, n1, n2),
        ),
    }
}
