// Reads stored jobs on standard input, each with limits on rounds, and prints for each limit what the program `job` prints of it; behind an
// answer that is no refusal, what else the job leaves: the rounds of both lists, a checksum of the site after and of the table, and the class
// numbers, two hexadecimal digits each. The work buffer has to come back as zeros, and so has every buffer of a refusal. Buffers of other
// lengths have to be refused with 1, whatever the limit is, and come back as zeros too. Any buffer that does not is named after the answer.
#![tactic(auto)]

ghost use Rattle.std.specs.Prelude.{◌≡◌, ◌+◌, length};
ghost use Rattle.pieces.specs.Room.{room};

use bitset::{SET_BYTES, SET_SLOTS};
use job_run::Report;
use limits::TABLE_BYTES;
use listing::{Found, WORK_BYTES};
use pieces::ROOM;
use site::SITE_BYTES;
use std::io;
use std::io::{BufReader, BufWriter, Read, Write};
use verdict::Refusal;

fn print_word<W: Write>(output: &mut W, word: &[u8], n: u64) -> io::Result<()> {
    output.write_all(word)?;
    write!(output, "{n}")
}

fn print_rounds<W: Write>(output: &mut W, after: Found, today: Found) -> io::Result<()> {
    print_word(output, b"rounds ", after.rounds as u64)?;
    print_word(output, b" ", today.rounds as u64)
}

fn print_left<W: Write>(
    output: &mut W,
    changed: &[u8],
    table: &[u8],
    classes: &[u8],
) -> io::Result<()> {
    print_word(output, b" site ", pieces::checksum(changed))?;
    print_word(output, b" table ", pieces::checksum(table))?;
    write!(output, " numbers ")?;
    pieces::print_bytes(output, classes)?;
    writeln!(output)
}

// In buffers of other lengths a job has to be refused with 1.
fn say_taken<W: Write>(output: &mut W, answer: Result<Report, Refusal>) -> io::Result<()> {
    pieces::say(
        output,
        !matches!(answer, Err(Refusal::BufferLength)),
        b"short buffers taken\n",
    )
}

fn print_answer<W: Write>(
    output: &mut W,
    answer: Result<Report, Refusal>,
    after: &[u8],
    today: &[u8],
) -> io::Result<()> {
    if after.len() != SET_BYTES {
        return say_taken(output, answer);
    }
    if today.len() != SET_BYTES {
        return say_taken(output, answer);
    }
    job_text::print(output, answer, after, today)
}

// Says which result buffer a refused job has not left as zeros.
fn say_results_left<W: Write>(
    output: &mut W,
    changed: &[u8],
    table: &[u8],
    after: &[u8],
    today: &[u8],
    classes: &[u8],
) -> io::Result<()> {
    pieces::say_left(output, changed, b"site left\n")?;
    pieces::say_left(output, table, b"table left\n")?;
    pieces::say_left(output, after, b"list after left\n")?;
    pieces::say_left(output, today, b"list today left\n")?;
    pieces::say_left(output, classes, b"classes left\n")
}

// Prints an answer and what the job has left.
fn show<W: Write>(
    output: &mut W,
    answer: Result<Report, Refusal>,
    changed: &[u8],
    table: &[u8],
    after: &[u8],
    today: &[u8],
    classes: &[u8],
) -> io::Result<()> {
    print_answer(output, answer, after, today)?;
    match answer {
        Ok(report) => {
            print_rounds(output, report.after, report.today)?;
            print_left(output, changed, table, classes)
        }
        Err(_) => say_results_left(output, changed, table, after, today, classes),
    }
}

// Does the job in the buffers that it is lent.
fn run<W: Write>(
    output: &mut W,
    file: &[u8],
    limit: u32,
    changed: &mut [u8],
    table: &mut [u8],
    after: &mut [u8],
    today: &mut [u8],
    classes: &mut [u8],
    work: &mut [u8],
) -> io::Result<()> {
    let r = job_entry::run(file, limit, changed, table, after, today, classes, work);
    show(output, r, changed, table, after, today, classes)?;
    pieces::say_left(output, work, b"work left\n")
}

fn answer<W: Write>(output: &mut W, file: &[u8], limit: u32) -> io::Result<()> {
    let mut changed = [170u8; SITE_BYTES];
    let mut table = [170u8; TABLE_BYTES];
    let mut after = [170u8; SET_BYTES];
    let mut today = [170u8; SET_BYTES];
    let mut classes = [170u8; SET_SLOTS];
    let mut work = [170u8; WORK_BYTES];
    run(
        output,
        file,
        limit,
        &mut changed,
        &mut table,
        &mut after,
        &mut today,
        &mut classes,
        &mut work,
    )
}

// Buffers that are a byte too short.
fn try_short<W: Write>(output: &mut W, file: &[u8], limit: u32) -> io::Result<()> {
    let mut changed = [170u8; SITE_BYTES - 1];
    let mut table = [170u8; TABLE_BYTES - 1];
    let mut after = [170u8; SET_BYTES - 1];
    let mut today = [170u8; SET_BYTES - 1];
    let mut classes = [170u8; SET_SLOTS - 1];
    let mut work = [170u8; WORK_BYTES - 1];
    run(
        output,
        file,
        limit,
        &mut changed,
        &mut table,
        &mut after,
        &mut today,
        &mut classes,
        &mut work,
    )
}

fn try_both<W: Write>(output: &mut W, file: &[u8], limit: u32) -> io::Result<()> {
    answer(output, file, limit)?;
    try_short(output, file, limit)
}

// Does the job under each limit that stands behind it.
fn try_limits<R: Read, W: Write>(
    input: &mut R,
    output: &mut W,
    file: &[u8],
    count: u8,
) -> io::Result<()> {
    for _ in 0..count {
        try_both(output, file, pieces::read_number(input)?)?;
    }
    Ok(())
}

// Reads one job into a buffer of zeros and prints its answers; false at the end of the input. A piece alone is no longer than 65,535 bytes,
// so a job has as many zeros behind its piece as the piece's kind less 1.
fn next_in<R: Read, W: Write>(input: &mut R, output: &mut W, file: &mut [u8]) -> io::Result<bool>
    requires { length file.old ≡ room + 255 }
{
    let piece = pieces::read(input, &mut file[0..ROOM])?;
    let kind = piece.kind;
    if kind == 0 {
        return Ok(false);
    }
    let n = piece.len + (kind as usize - 1);
    let count = pieces::read_count(input)?;
    try_limits(input, output, &file[0..n], count)?;
    Ok(true)
}

fn next<R: Read, W: Write>(input: &mut R, output: &mut W) -> io::Result<bool> {
    let mut file = [0u8; ROOM + 255];
    next_in(input, output, &mut file)
}

// A proved loop has to end, so it counts to a number that no input uses up.
fn main(rt: HostRuntime) -> io::Result<()> {
    let mut input = BufReader::new(rt.alloc(), rt.stdin())?;
    let mut output = BufWriter::new(rt.alloc(), rt.stdout())?;
    for _ in 0..u64::MAX {
        if !next(&mut input, &mut output)? {
            break;
        }
    }
    output.flush()
}
