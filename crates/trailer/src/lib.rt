// The job file: items 2 and 18, the edition of its sheet, and its pieces as parts of the caller's file.
#![tactic(auto)]

ghost use Rattle.std.specs.Prelude.{◌≡◌, false, ◌+◌, ◌*◌, ◌<◌, ◌≤◌, length};
ghost use Rattle.trailer.specs.File.{number, quad_limit, start_of, trailer_at, trailer_bytes};
ghost use Rattle.trailer.specs.Refusal.{item2, file_verdict};
ghost use Rattle.trailer.specs.Pieces.{site_in, condition_in, sheet_in};
ghost use Rattle.trailer.specs.Cuts.{Cut};

use verdict::Refusal;

const TRAILER_BYTES: usize = 16;

// The most bytes of a job file.
pub const FILE_LIMIT: usize = 65536;

// Which number of the trailer is which piece's distance, and which the edition.
const SHEET: usize = 0;

const CONDITION: usize = 1;

const SITE: usize = 2;

const EDITION: usize = 3;

// The number of four bytes, low byte first.
fn quad(b0: u8, b1: u8, b2: u8, b3: u8) -> usize
    ensures { (result ≡ b0 + 256 * b1 + 65536 * b2 + 16777216 * b3) × (result < quad_limit) }
{
    b0 as usize + 256 * (b1 as usize) + 65536 * (b2 as usize) + 16777216 * (b3 as usize)
}

// Number k of the trailer, any number below 2 to the power 32.
fn read_number(file: &[u8], k: usize) -> usize
    requires { (trailer_bytes ≤ length file.now) × (k < 4) }
    ensures { (result ≡ number k file.now) × (result < quad_limit) }
{
    let at = file.len() - TRAILER_BYTES + 4 * k;
    quad(file[at], file[at + 1], file[at + 2], file[at + 3])
}

// Is item 2 met?
fn refused(file: &[u8]) -> bool
    ensures { result ≡ item2 file.now }
{
    if file.len() < TRAILER_BYTES {
        return true;
    }
    if FILE_LIMIT < file.len() {
        return true;
    }
    let sheet = read_number(file, SHEET);
    let condition = read_number(file, CONDITION);
    let site = read_number(file, SITE);
    (condition < sheet) | (site < condition) | (site != file.len() - TRAILER_BYTES)
}

// Where the piece of distance k starts in a file that item 2 does not refuse.
fn start(file: &[u8], k: usize) -> usize
    requires { (item2 file.now ≡ false) × (k < 3) }
    ensures { (result ≡ start_of k file.now) × (result ≤ trailer_at file.now) }
{
    file.len() - TRAILER_BYTES - read_number(file, k)
}

// What the trailer of a file says: whether item 2 is met, the edition of the sheet, and where the site, the condition and the sheet end. Each
// piece starts where the one before it ends, the site at 0. Where item 2 is met the edition is 0, and where item 2 or 18 is met the pieces are
// empty and end at 0.
#[derive(Clone, Copy)]
pub struct Cuts {
    pub met: bool,
    pub edition: u32,
    pub site: usize,
    pub condition: usize,
    pub sheet: usize,
}

// Reads the trailer. Item 2 is tested here and nowhere else.
pub fn read(file: &[u8]) -> Cuts
    ensures { Cut file.now result.met result.edition result.site result.condition result.sheet }
{
    if refused(file) {
        return Cuts {
            met: true,
            edition: 0,
            site: 0,
            condition: 0,
            sheet: 0,
        };
    }
    let edition = read_number(file, EDITION) as u32;
    if !editions::known(edition) {
        return Cuts {
            met: false,
            edition: edition,
            site: 0,
            condition: 0,
            sheet: 0,
        };
    }
    let a = start(file, CONDITION);
    let b = start(file, SHEET);
    let e = file.len() - TRAILER_BYTES;
    Cuts {
        met: false,
        edition: edition,
        site: a,
        condition: b,
        sheet: e,
    }
}

// The outcome of item 2, then of item 18.
pub fn check(c: Cuts) -> Result<(), Refusal>
    ensures { result ≡ file_verdict c.met c.edition }
{
    if c.met {
        return Err(Refusal::File);
    }
    editions::check(c.edition)
}

// The pieces, as parts of the file that the cuts were read from.
pub fn site(file: &[u8], c: Cuts) -> &[u8]
    requires { Cut file.now c.met c.edition c.site c.condition c.sheet }
    ensures { result.now ≡ site_in file.now }
{
    let e = c.site;
    &file[..e]
}

pub fn condition(file: &[u8], c: Cuts) -> &[u8]
    requires { Cut file.now c.met c.edition c.site c.condition c.sheet }
    ensures { result.now ≡ condition_in file.now }
{
    let a = c.site;
    let e = c.condition;
    &file[a..e]
}

pub fn sheet(file: &[u8], c: Cuts) -> &[u8]
    requires { Cut file.now c.met c.edition c.site c.condition c.sheet }
    ensures { result.now ≡ sheet_in file.now }
{
    let a = c.condition;
    let e = c.sheet;
    &file[a..e]
}
