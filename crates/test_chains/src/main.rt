// Reads pairs of a site and a goal on standard input, each with ways and starts, and prints for each of these what is given: `chain`, its
// steps and its slots; or `set` and the set, two hexadecimal digits a byte; or `refused N W`. The bytes behind a chain have to be zeros, and
// so have the work buffer, the one of chain and set that is not given, and both of a refusal. Behind a refusal with 6 stands what the search by
// itself gives, since it takes links at slot 0 too. Buffers of other lengths have to be refused with 1 and come back as zeros too. Any buffer
// that does not is named after the answer.
#![tactic(auto)]

ghost use Rattle.std.specs.Prelude.{◌≡◌, ◌≤◌, ◌<◌, length};

use bitset::{SET_BYTES, SET_SLOTS, SlotSet};
use chaining::{CHAIN_BYTES, Ending};
use listing::WORK_BYTES;
use pieces::ROOM;
use site::{Site, Way};
use std::io;
use std::io::{BufReader, BufWriter, Read, Write};
use verdict::Refusal;

const EVERY: u32 = limits::EVERY as u32;

fn print_number<W: Write>(output: &mut W, word: &[u8], n: u64) -> io::Result<()> {
    output.write_all(word)?;
    write!(output, "{n}")
}

fn print_slot<W: Write>(output: &mut W, slot: u8) -> io::Result<()> {
    print_number(output, b" ", slot as u64)
}

fn print_slots<W: Write>(output: &mut W, slots: &[u8]) -> io::Result<()> {
    for slot in slots {
        print_slot(output, *slot)?;
    }
    Ok(())
}

// A chain has one slot more than steps.
fn print_chain<W: Write>(output: &mut W, steps: u32, chain: &[u8]) -> io::Result<()> {
    let n = steps as usize;
    print_number(output, b"chain ", steps as u64)?;
    if n >= chain.len() {
        return pieces::say(output, true, b" too many steps");
    }
    print_slots(output, &chain[0..n + 1])?;
    pieces::say_left(output, &chain[n + 1..], b" chain left behind its end")
}

fn print_set<W: Write>(output: &mut W, set: &[u8]) -> io::Result<()> {
    write!(output, "set ")?;
    pieces::print_bytes(output, set)
}

// Says which result buffer that is not given is not left as zeros.
fn show<W: Write>(
    output: &mut W,
    answer: Result<Option<u32>, Refusal>,
    chain: &[u8],
    set: &[u8],
) -> io::Result<()> {
    match answer {
        Ok(Some(steps)) => {
            print_chain(output, steps, chain)?;
            pieces::say_left(output, set, b" set left")
        }
        Ok(None) => {
            print_set(output, set)?;
            pieces::say_left(output, chain, b" chain left")
        }
        Err(refusal) => {
            write!(output, "{refusal}")?;
            pieces::say_left(output, chain, b" chain left")?;
            pieces::say_left(output, set, b" set left")
        }
    }
}

// Prints what the search gives, behind the refusal. The last slot is the goal.
fn search<W: Write>(output: &mut W, site: &Site, way: Way, start: u8) -> io::Result<()> {
    let mut chain = [170u8; CHAIN_BYTES];
    let mut set = [0u8; SET_BYTES];
    let mut work = [170u8; WORK_BYTES];
    let goal = SlotSet::single(SET_SLOTS - 1);
    let answer = match chaining::search(site, way, start, &goal, &mut chain, &mut work) {
        Ending::Steps(steps) => Some(u32::from(steps)),
        Ending::Reached(reached) => {
            reached.write(&mut set);
            None
        }
    };
    write!(output, "; ")?;
    show(output, Ok(answer), &chain, &set)?;
    pieces::say_left(output, &work, b" work left")
}

// An accepted site has no link at slot 0, and so no chain of 255 steps. The search asks only for the length, the way and the start.
fn search_refused<W: Write>(
    output: &mut W,
    answer: Result<Option<u32>, Refusal>,
    site: &[u8],
    way: u32,
    start: u32,
) -> io::Result<()> {
    let Some(site) = Site::new(site) else {
        return Ok(());
    };
    let Ok(start) = u8::try_from(start) else {
        return Ok(());
    };
    if way < EVERY && matches!(answer, Err(Refusal::Links)) {
        search(output, &site, Way::from(way as u8), start)?;
    }
    Ok(())
}

fn answer<W: Write>(
    output: &mut W,
    site: &[u8],
    cond: &[u8],
    way: u32,
    start: u32,
) -> io::Result<()> {
    let mut chain = [170u8; CHAIN_BYTES];
    let mut set = [170u8; SET_BYTES];
    let mut work = [170u8; WORK_BYTES];
    let r = chain_entry::chain(site, cond, way, start, &mut chain, &mut set, &mut work);
    show(output, r, &chain, &set)?;
    pieces::say_left(output, &work, b" work left")?;
    search_refused(output, r, site, way, start)
}

// In buffers of other lengths the question has to be refused with 1, and nothing is printed.
fn expect_item_1<W: Write>(
    output: &mut W,
    site: &[u8],
    cond: &[u8],
    way: u32,
    start: u32,
    chain: &mut [u8],
    set: &mut [u8],
    work: &mut [u8],
) -> io::Result<()> {
    let r = chain_entry::chain(site, cond, way, start, chain, set, work);
    pieces::say(
        output,
        !matches!(r, Err(Refusal::BufferLength)),
        b" other lengths taken",
    )?;
    pieces::say_left(output, chain, b" chain of another length left")?;
    pieces::say_left(output, set, b" set of another length left")?;
    pieces::say_left(output, work, b" work of another length left")
}

// Buffers of the first so many bytes of those that are a byte too long.
fn try_lengths<W: Write>(
    output: &mut W,
    site: &[u8],
    cond: &[u8],
    way: u32,
    start: u32,
    c: usize,
    s: usize,
    w: usize,
) -> io::Result<()>
    requires { (c ≤ 257) × ((s ≤ 33) × (w ≤ 65537)) }
{
    let mut chain = [170u8; CHAIN_BYTES + 1];
    let mut set = [170u8; SET_BYTES + 1];
    let mut work = [170u8; WORK_BYTES + 1];
    expect_item_1(
        output,
        site,
        cond,
        way,
        start,
        &mut chain[0..c],
        &mut set[0..s],
        &mut work[0..w],
    )
}

// One buffer at a time is a byte short, a byte long or empty; or no buffer has its length.
fn try_other<W: Write>(
    output: &mut W,
    site: &[u8],
    cond: &[u8],
    way: u32,
    start: u32,
    turn: u8,
) -> io::Result<()> {
    let c = CHAIN_BYTES;
    let s = SET_BYTES;
    let w = WORK_BYTES;
    match turn {
        0 => try_lengths(output, site, cond, way, start, c - 1, s, w),
        1 => try_lengths(output, site, cond, way, start, c + 1, s, w),
        2 => try_lengths(output, site, cond, way, start, c, s - 1, w),
        3 => try_lengths(output, site, cond, way, start, c, s + 1, w),
        4 => try_lengths(output, site, cond, way, start, c, s, w - 1),
        5 => try_lengths(output, site, cond, way, start, c, s, w + 1),
        6 => try_lengths(output, site, cond, way, start, 0, s, w),
        7 => try_lengths(output, site, cond, way, start, c, 0, w),
        8 => try_lengths(output, site, cond, way, start, c, s, 0),
        _ => try_lengths(output, site, cond, way, start, c - 1, s + 1, w - 1),
    }
}

// Prints the line of a question. The buffers of other lengths take turns.
fn print_line<W: Write>(
    output: &mut W,
    site: &[u8],
    cond: &[u8],
    way: u32,
    start: u32,
    turn: u8,
) -> io::Result<()> {
    answer(output, site, cond, way, start)?;
    try_other(output, site, cond, way, start, turn % 10)?;
    writeln!(output)
}

// Reads a way and a start, and prints their line.
fn read_question<R: Read, W: Write>(
    input: &mut R,
    output: &mut W,
    site: &[u8],
    cond: &[u8],
    turn: u8,
) -> io::Result<()> {
    let way = pieces::read_number(input)?;
    let start = pieces::read_number(input)?;
    print_line(output, site, cond, way, start, turn)
}

// Prints a line for each question that stands behind the pair.
fn print_lines<R: Read, W: Write>(
    input: &mut R,
    output: &mut W,
    site: &[u8],
    cond: &[u8],
    count: u8,
) -> io::Result<()> {
    for k in 0..count {
        read_question(input, output, site, cond, k)?;
    }
    Ok(())
}

// Reads the goal that stands behind a site, and prints the lines of the pair.
fn read_goal<R: Read, W: Write>(input: &mut R, output: &mut W, site: &[u8]) -> io::Result<()> {
    let mut cond = [0u8; ROOM];
    let piece = pieces::read(input, &mut cond)?;
    let n = piece.len;
    let count = pieces::read_count(input)?;
    print_lines(input, output, site, &cond[0..n], count)
}

// Reads one pair and prints its lines; false at the end of the input.
fn next<R: Read, W: Write>(input: &mut R, output: &mut W) -> io::Result<bool> {
    let mut site = [0u8; ROOM];
    let piece = pieces::read(input, &mut site)?;
    let kind = piece.kind;
    if kind == 0 {
        return Ok(false);
    }
    let n = piece.len;
    read_goal(input, output, &site[0..n])?;
    Ok(true)
}

// A proved loop has to end, so it counts to a number that no input uses up.
fn main(rt: HostRuntime) -> io::Result<()> {
    let mut input = BufReader::new(rt.alloc(), rt.stdin())?;
    let mut output = BufWriter::new(rt.alloc(), rt.stdout())?;
    for _ in 0..u64::MAX {
        if !next(&mut input, &mut output)? {
            break;
        }
    }
    output.flush()
}
