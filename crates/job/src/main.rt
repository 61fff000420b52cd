// Reads a job on standard input and prints its answer under the highest limit on rounds. The buffer has one byte more than the longest job, so
// a longer one is seen to be too long.
#![tactic(auto)]

use bitset::{SET_BYTES, SET_SLOTS};
use bounded_read::read_full;
use limits::{HIGHEST_LIMIT, TABLE_BYTES};
use listing::WORK_BYTES;
use site::SITE_BYTES;
use std::io;
use std::io::Write;
use trailer::FILE_LIMIT;

fn answer<W: Write>(output: &mut W, file: &[u8]) -> io::Result<()> {
    let mut changed = [0u8; SITE_BYTES];
    let mut table = [0u8; TABLE_BYTES];
    let mut after = [0u8; SET_BYTES];
    let mut today = [0u8; SET_BYTES];
    let mut classes = [0u8; SET_SLOTS];
    let mut work = [0u8; WORK_BYTES];
    let r = job_entry::run(
        file,
        HIGHEST_LIMIT,
        &mut changed,
        &mut table,
        &mut after,
        &mut today,
        &mut classes,
        &mut work,
    );
    job_text::print(output, r, &after, &today)
}

fn main(rt: HostRuntime) -> io::Result<()> {
    let mut file = [0u8; FILE_LIMIT + 1];
    let n = read_full(&mut rt.stdin(), &mut file)?;
    answer(&mut rt.stdout(), &file[..n])
}
