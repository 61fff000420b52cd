// Reads sites, conditions and sheets with their editions on standard input and prints for each case what the desk answers: the bytes that applying
// changes, behind their offsets; the rewritten table; the lists of the condition on the site after and of the rewritten table today; and the
// condition for going through, with its list today. Lists have the highest limit on rounds. Long tables are printed as their checksums.
// A refusal is printed as `refused N W`. What a buffer should not hold, and a buffer of another length that is not refused, is said.
#![tactic(auto)]

use bitset::SET_BYTES;
use limits::{HIGHEST_LIMIT, NODE_BYTES, TABLE_BYTES};
use listing::{Found, WORK_BYTES};
use pieces::ROOM;
use site::SITE_BYTES;
use std::io;
use std::io::{BufReader, BufWriter, Read, Write};
use verdict::Refusal;

// A longer table is printed as its checksum.
const SHOWN_BYTES: usize = 256 * NODE_BYTES;

fn print_byte_at<W: Write>(output: &mut W, offset: usize, x: u8) -> io::Result<()> {
    write!(output, " {offset}:{x}")
}

// The bytes of the site after that are not those of the site before.
fn print_changes<W: Write>(output: &mut W, before: &[u8], after: &[u8]) -> io::Result<()> {
    for k in 0..after.len() {
        if k < before.len() && before[k] != after[k] {
            print_byte_at(output, k, after[k])?;
        }
    }
    Ok(())
}

// A result buffer that is a byte too short.
fn short_site_is_refused(site: &[u8], sheet: &[u8], edition: u32) -> bool {
    let mut result = [170u8; SITE_BYTES - 1];
    let answer = apply_entry::apply(site, sheet, edition, &mut result);
    matches!(answer, Err(Refusal::BufferLength)) & pieces::all_zero(&result)
}

fn short_table_is_refused(cond: &[u8], sheet: &[u8], edition: u32) -> bool {
    let mut result = [170u8; TABLE_BYTES - 1];
    let answer = rewrite_entry::rewrite(cond, sheet, edition, &mut result);
    matches!(answer, Err(Refusal::BufferLength)) & pieces::all_zero(&result)
}

// True where the sheet is applied.
fn show_applied<W: Write>(
    output: &mut W,
    answer: Result<(), Refusal>,
    site: &[u8],
    res: &[u8],
) -> io::Result<bool> {
    match answer {
        Ok(()) => {
            write!(output, "applied")?;
            print_changes(output, site, res)?;
            Ok(true)
        }
        Err(refusal) => {
            write!(output, "{refusal}")?;
            pieces::say_left(output, res, b" site left")?;
            Ok(false)
        }
    }
}

// Applies and prints; true where the sheet is applied.
fn apply<W: Write>(
    output: &mut W,
    site: &[u8],
    sheet: &[u8],
    edition: u32,
    res: &mut [u8],
) -> io::Result<bool> {
    let answer = apply_entry::apply(site, sheet, edition, res);
    let applied = show_applied(output, answer, site, res)?;
    pieces::say(
        output,
        !short_site_is_refused(site, sheet, edition),
        b" short buffer taken",
    )?;
    writeln!(output)?;
    Ok(applied)
}

fn print_nodes<W: Write>(output: &mut W, table: &[u8]) -> io::Result<()> {
    if table.len() > SHOWN_BYTES {
        let sum = pieces::checksum(table);
        return write!(output, "sum {sum}");
    }
    pieces::print_bytes(output, table)
}

fn print_table<W: Write>(output: &mut W, nodes: u32, res: &[u8]) -> io::Result<()> {
    let n = NODE_BYTES * nodes as usize;
    write!(output, "{nodes} nodes ")?;
    if n <= res.len() {
        print_nodes(output, &res[0..n])?;
        pieces::say_left(output, &res[n..res.len()], b" table left")?;
    }
    Ok(())
}

fn show_rewritten<W: Write>(
    output: &mut W,
    answer: Result<u32, Refusal>,
    res: &[u8],
) -> io::Result<()> {
    match answer {
        Ok(nodes) => print_table(output, nodes, res),
        Err(refusal) => {
            write!(output, "{refusal}")?;
            pieces::say_left(output, res, b" table left")
        }
    }
}

// Rewrites and prints; the length of the rewritten table, 0 where it is refused.
fn rewrite<W: Write>(
    output: &mut W,
    cond: &[u8],
    sheet: &[u8],
    edition: u32,
    res: &mut [u8],
) -> io::Result<usize> {
    let answer = rewrite_entry::rewrite(cond, sheet, edition, res);
    show_rewritten(output, answer, res)?;
    pieces::say(
        output,
        !short_table_is_refused(cond, sheet, edition),
        b" short buffer taken",
    )?;
    writeln!(output)?;
    Ok(NODE_BYTES * answer.unwrap_or(0) as usize)
}

fn show_list<W: Write>(
    output: &mut W,
    answer: Result<Found, Refusal>,
    set: &[u8],
) -> io::Result<()> {
    match answer {
        Ok(found) => {
            let count = found.count;
            write!(output, "{count} ")?;
            pieces::print_bytes(output, set)
        }
        Err(refusal) => write!(output, "{refusal}"),
    }
}

fn print_list_in<W: Write>(
    output: &mut W,
    site: &[u8],
    cond: &[u8],
    set: &mut [u8],
    work: &mut [u8],
) -> io::Result<()> {
    let r = list_entry::list(site, cond, HIGHEST_LIMIT, set, work);
    show_list(output, r, set)?;
    writeln!(output)
}

fn print_list<W: Write>(output: &mut W, site: &[u8], cond: &[u8]) -> io::Result<()> {
    let mut set = [170u8; SET_BYTES];
    let mut work = [170u8; WORK_BYTES];
    print_list_in(output, site, cond, &mut set, &mut work)
}

// The list of a table, the first n bytes of a buffer.
fn print_list_of<W: Write>(output: &mut W, site: &[u8], table: &[u8], n: usize) -> io::Result<()> {
    if n <= table.len() {
        print_list(output, site, &table[0..n])?;
    }
    Ok(())
}

// The lists of the condition on the site after, and of the rewritten table, the first n bytes of a buffer, today.
fn print_lists<W: Write>(
    output: &mut W,
    site: &[u8],
    cond: &[u8],
    after: &[u8],
    table: &[u8],
    n: usize,
) -> io::Result<()> {
    write!(output, "after ")?;
    print_list(output, after, cond)?;
    write!(output, "today ")?;
    print_list_of(output, site, table, n)
}

fn short_through_is_refused(sheet: &[u8], edition: u32) -> bool {
    let mut result = [170u8; TABLE_BYTES - 1];
    let answer = rewrite_entry::through(sheet, edition, &mut result);
    matches!(answer, Err(Refusal::BufferLength)) & pieces::all_zero(&result)
}

// Makes the condition for going through and prints it; its length, 0 where it is refused.
fn through<W: Write>(
    output: &mut W,
    sheet: &[u8],
    edition: u32,
    res: &mut [u8],
) -> io::Result<usize> {
    write!(output, "through ")?;
    let answer = rewrite_entry::through(sheet, edition, res);
    show_rewritten(output, answer, res)?;
    pieces::say(
        output,
        !short_through_is_refused(sheet, edition),
        b" short buffer taken",
    )?;
    writeln!(output)?;
    Ok(NODE_BYTES * answer.unwrap_or(0) as usize)
}

// The list of the condition for going through on the site, where there is one.
fn print_works<W: Write>(
    output: &mut W,
    site: &[u8],
    sheet: &[u8],
    edition: u32,
    table: &mut [u8],
) -> io::Result<()> {
    let n = through(output, sheet, edition, table)?;
    if n > 0 {
        write!(output, "works ")?;
        print_list_of(output, site, table, n)?;
    }
    Ok(())
}

fn answer_in<W: Write>(
    output: &mut W,
    site: &[u8],
    cond: &[u8],
    sheet: &[u8],
    edition: u32,
    after: &mut [u8],
    table: &mut [u8],
) -> io::Result<()> {
    let applied = apply(output, site, sheet, edition, after)?;
    let n = rewrite(output, cond, sheet, edition, table)?;
    if applied & (n > 0) {
        print_lists(output, site, cond, after, table, n)?;
    }
    print_works(output, site, sheet, edition, table)
}

fn answer<W: Write>(
    output: &mut W,
    site: &[u8],
    cond: &[u8],
    sheet: &[u8],
    edition: u32,
) -> io::Result<()> {
    let mut after = [170u8; SITE_BYTES];
    let mut table = [170u8; TABLE_BYTES];
    answer_in(output, site, cond, sheet, edition, &mut after, &mut table)
}

// Reads the sheet that stands behind a site and a condition, and the edition behind it, and prints the lines of the case.
fn read_sheet<R: Read, W: Write>(
    input: &mut R,
    output: &mut W,
    site: &[u8],
    cond: &[u8],
) -> io::Result<()> {
    let mut sheet = [0u8; ROOM];
    let piece = pieces::read(input, &mut sheet)?;
    let n = piece.len;
    let edition = pieces::read_number(input)?;
    answer(output, site, cond, &sheet[0..n], edition)
}

// Reads the condition that stands behind a site.
fn read_condition<R: Read, W: Write>(input: &mut R, output: &mut W, site: &[u8]) -> io::Result<()> {
    let mut cond = [0u8; ROOM];
    let piece = pieces::read(input, &mut cond)?;
    let n = piece.len;
    read_sheet(input, output, site, &cond[0..n])
}

// Reads one case and prints its lines; false at the end of the input.
fn next<R: Read, W: Write>(input: &mut R, output: &mut W) -> io::Result<bool> {
    let mut site = [0u8; ROOM];
    let piece = pieces::read(input, &mut site)?;
    let kind = piece.kind;
    if kind == 0 {
        return Ok(false);
    }
    let n = piece.len;
    read_condition(input, output, &site[0..n])?;
    Ok(true)
}

// A proved loop has to end, so it counts to a number that no input uses up.
fn main(rt: HostRuntime) -> io::Result<()> {
    let mut input = BufReader::new(rt.alloc(), rt.stdin())?;
    let mut output = BufWriter::new(rt.alloc(), rt.stdout())?;
    for _ in 0..u64::MAX {
        if !next(&mut input, &mut output)? {
            break;
        }
    }
    output.flush()
}
