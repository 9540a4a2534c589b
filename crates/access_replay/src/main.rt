// Replays what the Rust answers for the order check and for lookup. `stdin` is a list of cases, each with its length in two bytes before it: a letter, `v` for the
// check, `l` for a lookup and `t` for the check and any number of lookups in one table; the number of records; each record's stage, its path's length and its path;
// and then, for `l`, the stage and the path that are looked for; for `t`, each stage, path's length and path. tests/make/access_replay made the list and the answers of
// `stdout`.

#![tactic(auto)]

ghost use Rattle.std.specs.Prelude.{◌≡◌, length};
ghost use Rattle.std.specs.Iterator.{at_most};

use access::{Found, verify};
use replay::Cases;
use std::io::Result;

// The most that is read of the list of cases.
const LIST_ROOM: usize = 262144;

// Room for 256 records; a case has 255 at most.
const TABLE_ROOM: usize = 24576;

// An entry without its path: every record is made of zeros, but for its stage and its path.
const ENTRY: [u8; 60] = [0; 60];

// By how much a stage is shifted in the flags.
const STAGE: u32 = 4096;

// The byte at a place; a case that is cut short goes on with zeros.
fn byte_at(case: &[u8], i: usize) -> u8 {
    case.get(i).copied().unwrap_or(0)
}

// Puts a case's records into a table, whose path store is the case itself, and answers where they end.
fn fill_table(case: &[u8], n: usize, records: &mut [u8]) -> usize
    ensures { length records.new ≡ length records.old }
{
    let mut at: usize = 2;
    for i in 0..n {
        let flags = byte_at(case, at) as u32 * STAGE;
        let start = at.saturating_add(2);
        let end = start.saturating_add(byte_at(case, at.saturating_add(1)) as usize);
        entry::put_record(&ENTRY, 0, flags, start, end, records, i);
        at = end;
    }
    at
}

// The lookups that follow in a case `t`, each a stage and a path with its length in a byte before it. One that is cut short ends the case.
#[derive(Drop)]
struct Lookups<'a> {
    rest: &'a [u8],
}

impl<'a> Iterator for Lookups<'a> {
    type Item = (u8, &'a [u8]);

    ghost remaining = { λ s. at_most (length s.rest.now) };

    fn next(&mut self) -> Option<(u8, &'a [u8])> {
        let ([stage, size], rest) = self.rest.split_first_chunk::<2>()?;
        let (path, rest) = rest.split_at_checked(*size as usize)?;
        self.rest = rest;
        Some((*stage, path))
    }
}

fn show_lookup(rt: &impl Print, case: &[u8], records: &[u8], stage: u8, path: &[u8]) -> Result<()> {
    match access::lookup(records, case, path, stage as u32) {
        Ok(Found::At { index, compared }) => println!(rt; "found {index} compared {compared}"),
        Ok(Found::Absent { compared }) => println!(rt; "absent compared {compared}"),
        Err(access::Error::NoStage) => replay::print_refused(rt, refusal::NO_STAGE, None),
        Err(access::Error::PathOutside(i)) => replay::print_refused(
            rt,
            refusal::PATH_OUTSIDE,
            Some(i),
        ),
    }
}

fn show_check(rt: &impl Print, case: &[u8], records: &[u8]) -> Result<()> {
    match verify::verify_entries(records, case) {
        Ok(()) => println!(rt; "sorted"),
        Err(verify::Error::PathOutside(i)) => replay::print_refused(
            rt,
            refusal::PATH_OUTSIDE,
            Some(i),
        ),
        Err(verify::Error::NotAfter(i)) => replay::print_refused(rt, refusal::NOT_AFTER, Some(i)),
    }
}

// The answers to a case whose records, which end at `at`, are in the table.
fn show_answers(rt: &impl Print, case: &[u8], records: &[u8], at: usize) -> Result<()> {
    let rest = case.get(at..).unwrap_or(&[]);
    match byte_at(case, 0) {
        b'v' => show_check(rt, case, records),
        b't' => {
            show_check(rt, case, records)?;
            for (stage, path) in (Lookups { rest }) {
                show_lookup(rt, case, records, stage, path)?;
            }
            Ok(())
        }
        _ => {
            let path = rest.get(1..).unwrap_or(&[]);
            show_lookup(rt, case, records, byte_at(rest, 0), path)
        }
    }
}

fn main(rt: HostRuntime) -> Result<()> {
    // arrays, since a vector could lack memory, and no answer is to depend on that
    let mut room = [0u8; LIST_ROOM];
    let mut table = [0u8; TABLE_ROOM];
    let size = replay::fill(rt.stdin(), &mut room);
    for case in Cases::of(&room[..size]) {
        let n = byte_at(case, 1) as usize;
        let at = fill_table(case, n, &mut table);
        // what cannot be printed is left out
        let _ = show_answers(&rt, case, &table[..n * entry::RECORD_SIZE], at);
    }
    Ok(())
}
