// For the test programs: pieces of jobs, read from an input; bytes and checksums, shown. A piece is written as its kind, its length, how
// many of its bytes are not 0, and each of these behind its offset (tests/pieces.py).
#![tactic(auto)]

ghost use Rattle.std.specs.Prelude.{◌≡◌, ◌<◌, length, IfOk};
ghost use Rattle.pieces.specs.Room.{room};

use bounded_read::read_full;
use buffer::wide;
use std::io;
use std::io::{Read, Write};

// Room for a piece of any length: a length and an offset are two bytes.
pub const ROOM: usize = 65536;

pub const SITE: u8 = 1;

pub const CONDITION: u8 = 2;

// The kind of a piece, 0 at the end of the input, and its length.
#[derive(Clone, Copy)]
pub struct Piece {
    pub kind: u8,
    pub len: usize,
}

// A number of two bytes, low byte first.
fn number(low: u8, high: u8) -> usize
    ensures { result < room }
{
    wide(low) + 256 * wide(high)
}

// Puts the next byte of the input, which stands behind its offset, into the piece.
fn put_next<R: Read>(input: &mut R, piece: &mut [u8]) -> io::Result<()>
    requires { length piece.old ≡ room }
{
    let mut entry = [0u8; 3];
    read_full(input, &mut entry)?;
    let at = number(entry[0], entry[1]);
    piece[at] = entry[2];
    Ok(())
}

fn fill<R: Read>(input: &mut R, piece: &mut [u8], count: usize) -> io::Result<()>
    requires { length piece.old ≡ room }
{
    for _ in 0..count {
        put_next(input, piece)?;
    }
    Ok(())
}

// Reads the next piece into a buffer of zeros. After an error the buffer may hold a part of the piece.
pub fn read<R: Read>(input: &mut R, piece: &mut [u8]) -> io::Result<Piece>
    requires { length piece.old ≡ room }
    ensures { IfOk result (λ p. p.len < room) }
{
    let mut head = [0u8; 5];
    if read_full(input, &mut head)? < 5 {
        return Ok(Piece { kind: 0, len: 0 });
    }
    fill(input, piece, number(head[3], head[4]))?;
    Ok(Piece {
        kind: head[0],
        len: number(head[1], head[2]),
    })
}

fn print_byte<W: Write>(output: &mut W, x: u8) -> io::Result<()> {
    write!(output, "{x:02x}")
}

// Two hexadecimal digits a byte.
pub fn print_bytes<W: Write>(output: &mut W, bytes: &[u8]) -> io::Result<()> {
    for x in bytes {
        print_byte(output, *x)?;
    }
    Ok(())
}

pub fn all_zero(bytes: &[u8]) -> bool {
    for x in bytes {
        if *x != 0 {
            return false;
        }
    }
    true
}

// Says the text where there is a fault.
pub fn say<W: Write>(output: &mut W, fault: bool, text: &[u8]) -> io::Result<()> {
    if fault {
        output.write_all(text)?;
    }
    Ok(())
}

// Says the text unless the bytes are zeros.
pub fn say_left<W: Write>(output: &mut W, bytes: &[u8], text: &[u8]) -> io::Result<()> {
    say(output, !all_zero(bytes), text)
}

// A number below 4,294,967,291, a prime.
fn mixed(h: u64, x: u8) -> u64
    requires { h < 4294967291 }
    ensures { result < 4294967291 }
{
    (257 * h + x as u64 + 1) % 4294967291
}

// Stands for bytes that are too many to be shown.
pub fn checksum(bytes: &[u8]) -> u64 {
    let mut h = 0;
    for x in bytes {
        h = mixed(h, *x);
    }
    h
}

// How many limits stand behind a pair or a job.
pub fn read_count<R: Read>(input: &mut R) -> io::Result<u8> {
    let mut bytes = [0u8; 1];
    read_full(input, &mut bytes)?;
    Ok(bytes[0])
}

// The number of four bytes, low byte first.
fn quad(b0: u8, b1: u8, b2: u8, b3: u8) -> u32 {
    b0 as u32 + 256 * (b1 as u32) + 65536 * (b2 as u32) + 16777216 * (b3 as u32)
}

// A number of four bytes: a limit on rounds, an edition, a way or a start.
pub fn read_number<R: Read>(input: &mut R) -> io::Result<u32> {
    let mut bytes = [0u8; 4];
    read_full(input, &mut bytes)?;
    Ok(quad(bytes[0], bytes[1], bytes[2], bytes[3]))
}
