// The print of a job as text, docs/SPEC.md, "The print": four lines, or `refused N W`. It is written into a buffer of the caller's, handed to a
// writer, or shown by `Display`.
#![tactic(auto)]

ghost use Rattle.std.specs.Prelude.{◌≡◌, ◌+◌, ◌≤◌, ◌<◌, length, take, OnOk, Some};
ghost use Rattle.std.specs.Io.KnownBytes.{Appends};
ghost use Rattle.bitset.specs.Set.{set_bytes};
ghost use Rattle.io.specs.Counts.{IsPrefixLen};
ghost use Rattle.io.specs.Digits.{hex_digit_ascii};
ghost use Rattle.verdict.specs.Verdict.{number_of, fault_of};
ghost use Rattle.job_text.specs.Text.{decimal, hexadecimal, count_line, list_line, done_text, refused_text, job_text};
ghost use Rattle.job_text.specs.Put.{text_bytes, Puts};

use bitset::SET_BYTES;
use job_run::Report;
use std::fmt;
use std::io::Write;
use verdict::Refusal;

// How many bytes the buffer for the text has: more than any print takes.
pub const TEXT_BYTES: usize = 256;

// Writes the word from byte `at` on, and gives where it ends.
fn put(text: &mut [u8], at: usize, word: &[u8]) -> usize
    requires { at + length word.now ≤ length text.old }
    ensures { Puts text.old at word.now text.new result }
{
    let end = at + word.len();
    text[at..end].copy_from_slice(word);
    end
}

// Twenty digits are enough for any number.
fn put_number(text: &mut [u8], at: usize, n: u64) -> usize
    requires { at + 20 ≤ length text.old }
    ensures puts { Puts text.old at (decimal n) text.new result }
    ensures upper_bound { result ≤ at + 20 }
{
    let mut digits = [0u8; 20];
    let k = io::decimal(n, &mut digits);
    put(text, at, &digits[..k])
}

fn digit(d: u8) -> u8
    requires { d < 16 }
    ensures { result ≡ hex_digit_ascii d }
{
    if d < 10 {
        return 48 + d;
    }
    87 + d
}

// Two hexadecimal digits a byte.
fn put_bytes(text: &mut [u8], at: usize, bytes: &[u8]) -> usize
    requires { at + (length bytes.now + length bytes.now) ≤ length text.old }
    ensures { Puts text.old at (hexadecimal bytes.now) text.new result }
{
    let mut end = at;
    for x in bytes {
        end = put(text, end, &[digit(*x / 16), digit(*x % 16)]);
    }
    end
}

fn put_count(text: &mut [u8], at: usize, word: &[u8], n: u64) -> usize
    requires { at + (length word.now + 21) ≤ length text.old }
    ensures puts { Puts text.old at (count_line word.now n) text.new result }
    ensures upper_bound { result ≤ at + (length word.now + 21) }
{
    let a = put(text, at, word);
    let b = put_number(text, a, n);
    put(text, b, b"\n")
}

fn put_list(text: &mut [u8], at: usize, word: &[u8], n: u64, set: &[u8]) -> usize
    requires { (length set.now ≡ set_bytes) × (at + (length word.now + 86) ≤ length text.old) }
    ensures puts { Puts text.old at (list_line word.now n set.now) text.new result }
    ensures upper_bound { result ≤ at + (length word.now + 86) }
{
    let a = put(text, at, word);
    let b = put_number(text, a, n);
    let c = put(text, b, b" ");
    let d = put_bytes(text, c, set);
    put(text, d, b"\n")
}

// The four lines of a job that is done.
fn done(report: Report, after: &[u8], today: &[u8], text: &mut [u8]) -> usize
    requires { (length after.now ≡ set_bytes) × ((length today.now ≡ set_bytes) × (length text.old ≡ text_bytes)) }
    ensures { (result ≤ text_bytes) × (take result text.new ≡ done_text report.after.count report.today.count report.nodes report.classes after.now today.now) }
{
    let one = put_list(text, 0, b"after ", report.after.count as u64, after);
    let two = put_list(text, one, b"today ", report.today.count as u64, today);
    let three = put_count(text, two, b"nodes ", report.nodes as u64);
    put_count(text, three, b"classes ", report.classes as u64)
}

// The line of a job that is refused.
fn refused(refusal: Refusal, text: &mut [u8]) -> usize
    requires { length text.old ≡ text_bytes }
    ensures { (result ≤ text_bytes) × (take result text.new ≡ refused_text (number_of refusal) (fault_of refusal)) }
{
    let a = put(text, 0, b"refused ");
    let b = put_number(text, a, refusal.number() as u64);
    put_count(text, b, b" ", refusal.fault() as u64)
}

// Writes the print of a job's answer with its two lists, the condition's on the site after and the rewritten one's on the site today.
// Gives its length.
pub fn write(answer: Result<Report, Refusal>, after: &[u8], today: &[u8], text: &mut [u8]) -> usize
    requires { (length after.now ≡ set_bytes) × ((length today.now ≡ set_bytes) × (length text.old ≡ text_bytes)) }
    ensures prefix_len { IsPrefixLen result text.new }
    ensures text_after { take result text.new ≡ job_text answer after.now today.now }
{
    match answer {
        Ok(report) => done(report, after, today, text),
        Err(refusal) => refused(refusal, text),
    }
}

// Two hexadecimal digits a byte.
#[derive(Clone, Copy)]
struct Hexadecimal<'a> {
    bytes: &'a [u8],
}

impl fmt::Display for Hexadecimal<'_> {
    ghost output = { λ h. Some (hexadecimal h.bytes.now) };

    fn fmt<W: fmt::Write>(&self, f: &mut fmt::Formatter<W>) -> fmt::Result {
        for &b in self.bytes {
            write!(f, "{b:02x}")?;
        }
        Ok(())
    }
}

// A job's answer with its two lists, the condition's on the site after and the rewritten one's on the site today.
#[derive(Clone, Copy)]
pub struct Printed<'a> {
    pub answer: Result<Report, Refusal>,
    pub after: &'a [u8],
    pub today: &'a [u8],
}

impl fmt::Display for Printed<'_> {
    ghost output = { λ p. Some (job_text p.answer p.after.now p.today.now) };

    fn fmt<W: fmt::Write>(&self, f: &mut fmt::Formatter<W>) -> fmt::Result {
        let Printed {
            answer,
            after,
            today,
        } = *self;
        let report = match answer {
            Ok(report) => report,
            Err(refusal) => return writeln!(f, "{refusal}"),
        };
        let after = Hexadecimal { bytes: after };
        let today = Hexadecimal { bytes: today };
        writeln!(f, "after {} {after}", report.after.count)?;
        writeln!(f, "today {} {today}", report.today.count)?;
        writeln!(f, "nodes {}", report.nodes)?;
        writeln!(f, "classes {}", report.classes)
    }
}

// Prints a job's answer with its two lists: what `write` makes, handed over in one piece. After an error the writer may have got a part of it,
// of which std's `write_all` promises nothing. Lists of other lengths, for which no buffer is stated, are printed piece by piece.
pub fn print<W: Write>(
    output: &mut W,
    answer: Result<Report, Refusal>,
    after: &[u8],
    today: &[u8],
) -> std::io::Result<()>
    ensures { OnOk result (Appends (W.contents output.old) (W.contents output.new) (job_text answer after.now today.now)) }
{
    if (after.len() == SET_BYTES) & (today.len() == SET_BYTES) {
        let mut text = [0u8; TEXT_BYTES];
        let n = write(answer, after, today, &mut text);
        return output.write_all(&text[..n]);
    }
    let printed = Printed {
        answer,
        after,
        today,
    };
    write!(output, "{printed}")
}
