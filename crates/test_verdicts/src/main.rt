// Reads pieces of jobs on standard input and prints for each that it is accepted, or the item and W with which it is refused.
#![tactic(auto)]

use pieces::ROOM;
use std::io;
use std::io::{BufReader, BufWriter, Read, Write};
use verdict::Refusal;

fn judge(kind: u8, piece: &[u8]) -> Result<(), Refusal> {
    if kind == pieces::SITE {
        return site::check(piece);
    }
    if kind == pieces::CONDITION {
        let mut free = even_rule::no_masks();
        return even_rule::check(piece, &mut free);
    }
    sheet::check(piece)
}

fn print_kind<W: Write>(output: &mut W, kind: u8) -> io::Result<()> {
    match kind {
        1 => write!(output, "site "),
        2 => write!(output, "condition "),
        _ => write!(output, "sheet "),
    }
}

fn print_verdict<W: Write>(output: &mut W, v: Result<(), Refusal>) -> io::Result<()> {
    match v {
        Ok(()) => writeln!(output, "accepted"),
        Err(refusal) => writeln!(output, "{refusal}"),
    }
}

// Reads one piece and prints its line; false at the end of the input.
fn next<R: Read, W: Write>(input: &mut R, output: &mut W) -> io::Result<bool> {
    let mut bytes = [0u8; ROOM];
    let piece = pieces::read(input, &mut bytes)?;
    let kind = piece.kind;
    if kind == 0 {
        return Ok(false);
    }
    let len = piece.len;
    print_kind(output, kind)?;
    print_verdict(output, judge(kind, &bytes[0..len]))?;
    Ok(true)
}

// A proved loop has to end, so it counts to a number that no input uses up.
fn main(rt: HostRuntime) -> io::Result<()> {
    let mut input = BufReader::new(rt.alloc(), rt.stdin())?;
    let mut output = BufWriter::new(rt.alloc(), rt.stdout())?;
    for _ in 0..u64::MAX {
        if !next(&mut input, &mut output)? {
            break;
        }
    }
    output.flush()
}
