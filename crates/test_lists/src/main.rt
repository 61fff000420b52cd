// Reads pairs of a site and a condition on standard input, each with limits on rounds, and prints for each limit what listing answers: the
// count, the set, two hexadecimal digits a byte, and the rounds; or `refused N W`. The work buffer has to come back as zeros, and so has the
// set of a refusal. What is listed is listed without a limit too. Buffers of other lengths have to be refused with 1, whatever the limit is,
// and come back as zeros too. Any buffer that does not is named after the answer.
#![tactic(auto)]

ghost use Rattle.std.specs.Prelude.{◌≡◌, length};
ghost use Rattle.bitset.specs.Set.{set_bytes};
ghost use Rattle.limits.specs.Limits.{table_nodes};
ghost use Rattle.verdict.specs.Verdict.{Accepted};
ghost use Rattle.condition.specs.Refusal.{condition_verdict};
ghost use Rattle.even_rule.specs.Free.{FreeRows};

use bitset::SET_BYTES;
use listing::{Found, WORK_BYTES};
use pieces::ROOM;
use site::Site;
use std::io;
use std::io::{BufReader, BufWriter, Read, Write};
use verdict::Refusal;

fn print_found<W: Write>(output: &mut W, found: Found, set: &[u8]) -> io::Result<()> {
    let count = found.count;
    let rounds = found.rounds;
    write!(output, "{count} ")?;
    pieces::print_bytes(output, set)?;
    write!(output, " rounds {rounds}")
}

fn print_answer<W: Write>(
    output: &mut W,
    answer: Result<Found, Refusal>,
    set: &[u8],
) -> io::Result<()> {
    match answer {
        Ok(found) => print_found(output, found, set),
        Err(refusal) => write!(output, "{refusal}"),
    }
}

// In buffers of other lengths listing has to be refused with 1.
fn show<W: Write>(output: &mut W, answer: Result<Found, Refusal>, set: &[u8]) -> io::Result<()> {
    if set.len() == SET_BYTES {
        print_answer(output, answer, set)
    } else {
        pieces::say(
            output,
            !matches!(answer, Err(Refusal::BufferLength)),
            b" short buffers taken",
        )
    }
}

// Lists without a limit: the count and the set have to be those that were found under one.
fn compare<W: Write>(
    output: &mut W,
    site: &Site,
    cond: &[u8],
    free: &[u16],
    found: Found,
    set: &[u8],
) -> io::Result<()>
    requires cond_value { condition_verdict cond.now ≡ Accepted }
    requires free_len { (length free.now ≡ table_nodes) × FreeRows cond.now free.now }
    requires set_len { length set.now ≡ set_bytes }
{
    let mut all = [170u8; SET_BYTES];
    let mut work = [170u8; WORK_BYTES];
    let n = listing::list_all(site, cond, free, &mut all, &mut work);
    pieces::say(output, n != found.count, b" another count without a limit")?;
    pieces::say(output, set != &all[..], b" another set without a limit")?;
    pieces::say_left(output, &work, b" work left without a limit")
}

// A list that was found under a limit, once more without one. Listing without a limit asks for what its callers have checked.
fn try_without_limit<W: Write>(
    output: &mut W,
    site: &[u8],
    cond: &[u8],
    found: Found,
    set: &[u8],
) -> io::Result<()> {
    let Some(site) = Site::new(site) else {
        return Ok(());
    };
    if set.len() != SET_BYTES {
        return Ok(());
    }
    let mut free = even_rule::no_masks();
    match even_rule::check(cond, &mut free) {
        Ok(()) => compare(output, &site, cond, &free, found, set),
        Err(_) => pieces::say(output, true, b" listed, and refused"),
    }
}

// Lists in the buffers that it is lent, and prints the answer.
fn list<W: Write>(
    output: &mut W,
    site: &[u8],
    cond: &[u8],
    limit: u32,
    set: &mut [u8],
    work: &mut [u8],
) -> io::Result<()> {
    let answer = list_entry::list(site, cond, limit, set, work);
    show(output, answer, set)?;
    pieces::say_left(output, work, b" work left")?;
    match answer {
        Ok(found) => try_without_limit(output, site, cond, found, set),
        Err(_) => pieces::say_left(output, set, b" set left"),
    }
}

fn answer<W: Write>(output: &mut W, site: &[u8], cond: &[u8], limit: u32) -> io::Result<()> {
    let mut set = [170u8; SET_BYTES];
    let mut work = [170u8; WORK_BYTES];
    list(output, site, cond, limit, &mut set, &mut work)
}

// Buffers that are a byte too short.
fn try_short<W: Write>(output: &mut W, site: &[u8], cond: &[u8], limit: u32) -> io::Result<()> {
    let mut set = [170u8; SET_BYTES - 1];
    let mut work = [170u8; WORK_BYTES - 1];
    list(output, site, cond, limit, &mut set, &mut work)
}

// Prints the line of a pair and a limit.
fn print_line<W: Write>(output: &mut W, site: &[u8], cond: &[u8], limit: u32) -> io::Result<()> {
    answer(output, site, cond, limit)?;
    try_short(output, site, cond, limit)?;
    writeln!(output)
}

// Prints a line for each limit that stands behind the pair.
fn print_lines<R: Read, W: Write>(
    input: &mut R,
    output: &mut W,
    site: &[u8],
    cond: &[u8],
    count: u8,
) -> io::Result<()> {
    for _ in 0..count {
        print_line(output, site, cond, pieces::read_number(input)?)?;
    }
    Ok(())
}

// Reads the condition that stands behind a site, and prints the lines of the pair.
fn read_condition<R: Read, W: Write>(input: &mut R, output: &mut W, site: &[u8]) -> io::Result<()> {
    let mut cond = [0u8; ROOM];
    let piece = pieces::read(input, &mut cond)?;
    let n = piece.len;
    let count = pieces::read_count(input)?;
    print_lines(input, output, site, &cond[0..n], count)
}

// Reads one pair and prints its lines; false at the end of the input.
fn next<R: Read, W: Write>(input: &mut R, output: &mut W) -> io::Result<bool> {
    let mut site = [0u8; ROOM];
    let piece = pieces::read(input, &mut site)?;
    let kind = piece.kind;
    if kind == 0 {
        return Ok(false);
    }
    let n = piece.len;
    read_condition(input, output, &site[0..n])?;
    Ok(true)
}

// A proved loop has to end, so it counts to a number that no input uses up.
fn main(rt: HostRuntime) -> io::Result<()> {
    let mut input = BufReader::new(rt.alloc(), rt.stdin())?;
    let mut output = BufWriter::new(rt.alloc(), rt.stdout())?;
    for _ in 0..u64::MAX {
        if !next(&mut input, &mut output)? {
            break;
        }
    }
    output.flush()
}
