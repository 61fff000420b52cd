// The sheet's bytes: edits read, and items 11 and 12.
#![tactic(auto)]

ghost use Rattle.std.specs.Prelude.{◌≡◌, not, ◌&&◌, ◌+◌, ◌*◌, ◌≤◌, length};
ghost use Rattle.finite.specs.Tests.{same, below};
ghost use Rattle.limits.specs.Limits.{names};
ghost use Rattle.semantics.specs.Edit.{functional};
ghost use Rattle.sheet.specs.Bytes.{edit_of, link_edit, read_edit, edit_at};
ghost use Rattle.sheet.specs.Refusal.{edit_fits, fits_at, sheet_verdict};

use editions::SECOND;
use limits::{GENERAL_LINKS, LABELS, LINKS, NAMES};
use verdict::Refusal;

// The nine edits, with their operands in the order of the sheet; and last what AT on a functional link is in edition 2.
#[derive(Clone, Copy)]
pub enum Op {
    Cn1(u8, u8),
    Cn2(u8, u8, u8),
    Ap(u8, u8),
    Dp(u8, u8),
    At(u8, u8, u8),
    Dt1(u8, u8, u8),
    Dt2(u8, u8),
    As(u8, u8),
    Ds(u8),
    Rt(u8, u8, u8),
}

// Operation 4 with its operands: in edition 2, on a functional link, it replaces the old target.
fn link_edit(edition: u32, m: u8, n1: u8, n2: u8) -> Op
    ensures { edit_of result ≡ link_edit edition m n1 n2 }
{
    if (edition == SECOND) & is_functional(m) {
        return Op::Rt(m, n1, n2);
    }
    Op::At(m, n1, n2)
}

// The edit with the operation o and the operands x, y and z. An unknown operation, which item 12 refuses, is read as 8.
fn read_edit(edition: u32, o: u8, x: u8, y: u8, z: u8) -> Op
    ensures { edit_of result ≡ read_edit edition o x y z }
{
    match o {
        0 => Op::Cn1(x, y),
        1 => Op::Cn2(x, y, z),
        2 => Op::Ap(x, y),
        3 => Op::Dp(x, y),
        4 => link_edit(edition, x, y, z),
        5 => Op::Dt1(x, y, z),
        6 => Op::Dt2(x, y),
        7 => Op::As(x, y),
        _ => Op::Ds(x),
    }
}

// Edit k of a sheet.
pub fn edit_at(sheet: &[u8], edition: u32, k: usize) -> Op
    requires { 4 * k + 4 ≤ length sheet.now }
    ensures { edit_of result ≡ edit_at edition sheet.now k }
{
    let at = 4 * k;
    read_edit(
        edition,
        sheet[at],
        sheet[at + 1],
        sheet[at + 2],
        sheet[at + 3],
    )
}

// Is n a name that an edit may move: any but name 0?
fn may_move(n: u8) -> bool
    ensures { result ≡ below n names && not (same n 0) }
{
    (n < NAMES) & (n != 0)
}

// Is f one of the links with one target at most?
pub fn is_functional(f: u8) -> bool
    ensures { result ≡ functional f }
{
    (GENERAL_LINKS <= f) & (f < LINKS)
}

// Item 12 is not met by an edit: for each operation, what its operands may be, and 0 for those that it does not use.
fn fits(o: u8, x: u8, y: u8, z: u8) -> bool
    ensures { result ≡ edit_fits o x y z }
{
    match o {
        0 => may_move(x) & (y < NAMES) & (z == 0),
        1 => may_move(x) & (y < NAMES) & is_functional(z),
        2 => (x < NAMES) & (y < LABELS) & (z == 0),
        3 => (x < NAMES) & (y < LABELS) & (z == 0),
        4 => (x < LINKS) & (y < NAMES) & (z < NAMES),
        5 => (x < LINKS) & (y < NAMES) & (z < NAMES),
        6 => is_functional(x) & (y < NAMES) & (z == 0),
        7 => may_move(x) & (z == 0),
        8 => (x < NAMES) & (y == 0) & (z == 0),
        _ => false,
    }
}

// Item 12 is not met by edit k of a sheet.
fn edit_fits(sheet: &[u8], k: usize) -> bool
    requires { 4 * k + 4 ≤ length sheet.now }
    ensures { result ≡ fits_at sheet.now k }
{
    let at = 4 * k;
    fits(sheet[at], sheet[at + 1], sheet[at + 2], sheet[at + 3])
}

// The first of items 11 and 12 that a sheet meets; 12 by the lowest edit that meets it.
pub fn check(sheet: &[u8]) -> Result<(), Refusal>
    ensures { result ≡ sheet_verdict sheet.now }
{
    if sheet.len() % 4 != 0 {
        return Err(Refusal::SheetLength);
    }
    if 256 < sheet.len() {
        return Err(Refusal::SheetLength);
    }
    let n = sheet.len() / 4;
    for k in 0..n {
        if !edit_fits(sheet, k) {
            return Err(Refusal::MalformedEdit(k as u16));
        }
    }
    Ok(())
}
