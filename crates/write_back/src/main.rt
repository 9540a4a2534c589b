// Reads index files that git made and writes each back, with TREE only and the hash. Its arguments name them two by two: a file, and what the Rust wrote of it. What
// it prints must be what tests/make/write_back, which made the files, says of the Rust's.

#![tactic(auto)]

ghost use Rattle.std.specs.Prelude.{◌≤◌, length};

use file::Reading;
use std::env;
use std::fs::File;
use std::io::Result;
use write::{Error, Options, Written};

// The most that is read of a file, and that is written.
const MOST_BYTES: usize = 8192;

// How many records and nodes are lent.
const SLOTS: usize = 64;

const RECORD: usize = 96;

const NODE: usize = 72;

const PATH_ROOM: usize = 4096;

// What was read of a file, each part as long as what it holds, and what is to be written.
#[derive(Drop)]
struct Table<'a> {
    records: &'a [u8],
    paths: &'a [u8],
    nodes: &'a [u8],
    options: Options,
}

// Whether what was written is what the Rust wrote, and its SHA-1.
fn show_bytes(rt: &impl Print, written: &[u8], rust: &[u8]) -> Result<()> {
    let not = if written == rust { "" } else { "NOT " };
    print!(rt; ", {not}as the Rust, sha1 ")?;
    rt.write_all(&show::hex_line(sha1_hash::sha1_of(written)))
}

fn show_refused(rt: &impl Print, number: u32, carried: Option<usize>) -> Result<()> {
    print!(rt; ": ")?;
    replay::print_refused(rt, number, carried)
}

// Writes a table that was read of a file, and shows what came of it.
fn show_written(rt: &impl Print, table: Table<'_>, file: &[u8], rust: &[u8]) -> Result<()> {
    let mut out = [238u8; MOST_BYTES];
    match write::write_to(
        table.records,
        table.paths,
        table.nodes,
        file,
        table.options,
        &mut out,
    ) {
        Ok(Written { version, size }) => {
            print!(rt; ": version {version} size {size}")?;
            show_bytes(rt, out.get(..size).unwrap_or(&out), rust)
        }
        Err(Error::PathOutside { index }) => show_refused(rt, refusal::PATH_OUTSIDE, Some(index)),
        Err(Error::NotProper) => show_refused(rt, refusal::NOT_PROPER, None),
        Err(Error::TooLarge) => show_refused(rt, refusal::TOO_LARGE, None),
        Err(Error::ShortOutput { size }) => show_refused(rt, refusal::SHORT_OUTPUT, Some(size)),
    }
}

// Reads a file, and shows what came of writing it back; a file that is refused is only named.
fn show_file(rt: &impl Print, file: &[u8], rust: &[u8]) -> Result<()> {
    let mut records = [0u8; SLOTS * RECORD];
    let mut paths = [0u8; PATH_ROOM];
    let mut nodes = [0u8; SLOTS * NODE];
    let Ok(
        Reading {
            sparse,
            records: n,
            path_bytes,
            tree,
            ..
        },
    ) = file::read(file, &mut records, &mut paths, &mut nodes)
    else {
        return println!(rt; ": refused");
    };
    let table = Table {
        records: records.get(..n.saturating_mul(RECORD)).unwrap_or(&records),
        paths: paths.get(..path_bytes).unwrap_or(&paths),
        nodes: nodes
            .get(..tree.unwrap_or(0).saturating_mul(NODE))
            .unwrap_or(&nodes),
        // made here, as in each program that writes: what crate `replay` makes, the programs that only read have to wait for
        options: Options {
            tree: tree.is_some(),
            cache: true,
            eoie: false,
            sparse,
            unhashed: false,
        },
    };
    show_written(rt, table, file, rust)
}

// Reads the file of that name, as much of it as there is room for, and answers how many bytes that are; none where it cannot be opened.
fn load(rt: &HostRuntime, name: &str, room: &mut [u8]) -> usize
    ensures { result ≤ length room.new }
{
    match File::open(rt, name) {
        Ok(file) => replay::fill(file, room),
        Err(why) => {
            let _ = eprintln!(rt; "{name}: {why}");
            0
        }
    }
}

// The file of that name, and beside it what the Rust wrote. What cannot be printed is left out.
fn show_pair(rt: &HostRuntime, name: &str, beside: &str) {
    // arrays, here and above, since a vector could lack memory, and no answer is to depend on that
    let mut file = [0u8; MOST_BYTES];
    let mut rust = [0u8; MOST_BYTES];
    let n = load(rt, name, &mut file);
    let m = load(rt, beside, &mut rust);
    let _ = print!(rt; "{name}");
    let _ = show_file(rt, &file[..n], &rust[..m]);
}

fn main(rt: HostRuntime) -> Result<()> {
    let names: Vec<String> = env::args(&rt)?.skip(1).collect(rt.alloc())?;
    for pair in names.as_slice().chunks(2) {
        match pair {
            [name, beside] => show_pair(&rt, name.as_str(), beside.as_str()),
            [name] => show_pair(&rt, name.as_str(), ""),
            _ => (),
        }
    }
    Ok(())
}
