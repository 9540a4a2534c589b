// Pages of the writer: 01's TREE of 32 bytes, read and written back, and the differences D10 to D13 from the Rust; tests/pages has what the Rust makes of the same
// tables.

#![tactic(auto)]

use file::Reading;
use node::MINUS_ONE;
use replay::Row;
use std::io::Result;
use write::{Error, Options, Written};

// Names of the nodes, and their ids.
const NAMES: &str = "abcdefghijklmnopqrst\0x";

const RECORD: usize = entry::RECORD_SIZE;

// A line of bytes in hexadecimal digits.
fn show_line(rt: &impl Print, bytes: &[u8]) -> Result<()> {
    replay::print_hex(rt, bytes)?;
    println!(rt)
}

// Version and size, or the line of a refusal.
fn show_answer(rt: &impl Print, answer: std::result::Result<Written, Error>) -> Result<()> {
    let (number, carried) = match answer {
        Ok(Written { version, size }) => return println!(rt; "written {version} {size}"),
        Err(Error::PathOutside { index }) => (refusal::PATH_OUTSIDE, Some(index)),
        Err(Error::NotProper) => (refusal::NOT_PROPER, None),
        Err(Error::TooLarge) => (refusal::TOO_LARGE, None),
        Err(Error::ShortOutput { size }) => (refusal::SHORT_OUTPUT, Some(size)),
    };
    replay::print_refused(rt, number, carried)
}

// TREE and the hash are asked for, and nothing else. Each program that writes makes its own Options and names the writer's refusals itself: what crate
// `replay` makes, the programs that only read have to wait for.
fn only_tree(given: bool) -> Options {
    Options {
        tree: given,
        cache: true,
        eoie: false,
        sparse: false,
        unhashed: false,
    }
}

fn row(name: &'static str, count: u64, subtrees: u64, parent: u64) -> Row {
    Row {
        name,
        count,
        subtrees,
        parent,
    }
}

// 01's TREE: empty name, "2 1", newline, id, then "a", NUL, "-1 0", newline.
fn tree_page(rt: &impl Print) -> Result<()> {
    let file = b"\x002 1\nAAAAAAAAAAAAAAAAAAAAa\0-1 0\n";
    // arrays, here and below, since a vector could lack memory, and no page is to depend on that
    let mut nodes = [0u8; 144];
    let mut out = [255u8; 33];
    show_line(rt, file)?;
    let _ = tree::read_tree(file, 0, file.len(), &mut nodes);
    tree_write::put_tree(&nodes, file, &mut out, 0);
    show_line(rt, &out)
}

// The page's name, and a table of no records with the tree of these nodes: the answer, and what the output holds.
fn show_tree(rt: &impl Print, page: &str, rows: &[Row; 3]) -> Result<()> {
    let mut nodes = [0u8; 3 * node::NODE_SIZE];
    for (i, row) in rows.iter().enumerate() {
        replay::put_row(NAMES, *row, &mut nodes, i);
    }
    let mut out = [255u8; 128];
    let answer = write::write_to(
        &[],
        &[],
        &nodes,
        NAMES.as_bytes(),
        only_tree(true),
        &mut out,
    );
    print!(rt; "{page}: ")?;
    show_answer(rt, answer)?;
    show_line(rt, &out)
}

// D10: children b, a are written a, b.
fn order_page(rt: &impl Print) -> Result<()> {
    let rows = [
        row("", MINUS_ONE, 2, MINUS_ONE),
        row("b", MINUS_ONE, 0, 0),
        row("a", 3, 0, 0),
    ];
    show_tree(rt, "D10, children b, a", &rows)
}

// D11: a count of 2^32 - 1, two children "a", a name with NUL; each is refused.
fn improper_page(rt: &impl Print) -> Result<()> {
    let a = row("a", MINUS_ONE, 0, 0);
    let b = row("b", MINUS_ONE, 0, 0);
    let with_nul = row("t\0x", MINUS_ONE, 0, 0);
    let root = row("", 4, 2, MINUS_ONE);
    show_tree(
        rt,
        "D11, count 2^32 - 1",
        &[row("", 4294967295, 2, MINUS_ONE), a, b],
    )?;
    show_tree(rt, "D11, two children a", &[root, a, a])?;
    show_tree(rt, "D11, NUL in a name", &[root, a, with_nul])
}

// The version, and how many records and path bytes are read back.
fn show_read_back(rt: &impl Print, file: &[u8]) -> Result<()> {
    let mut records = [0u8; 192];
    let mut paths = [0u8; 8191];
    match file::read(file, &mut records, &mut paths, &mut []) {
        Ok(
            Reading {
                version,
                records,
                path_bytes,
                ..
            },
        ) => println!(rt; "read back {version} {records} {path_bytes}"),
        Err(_) => println!(rt; "not read back"),
    }
}

// Two long paths: the file, of which the SHA-1 and the second entry's head are shown, and an output that is too short.
fn show_long(rt: &impl Print, records: &[u8], paths: &[u8]) -> Result<()> {
    let mut out = [255u8; 8352];
    let answer = write::write_to(records, paths, &[], &[], only_tree(false), &mut out);
    print!(rt; "D12, D13: ")?;
    show_answer(rt, answer)?;
    rt.write_all(&show::hex_line(sha1_hash::sha1_of(&out)))?;
    show_line(rt, &out[4172..4234])?;
    show_read_back(rt, &out)?;
    let mut short = [255u8; 8];
    let refused = write::write_to(records, paths, &[], &[], only_tree(false), &mut short);
    print!(rt; "an output of 8 bytes: ")?;
    show_answer(rt, refused)?;
    show_line(rt, &short)
}

// D12: a path of 4095 bytes and another entry behind it, whose first bytes stand 4160 bytes behind the first's. D13: the mode ffffffff is written as it stands.
fn long_records() -> [u8; 2 * RECORD] {
    // an entry without its path: a zero id, mode 100644
    let mut plain = [0u8; 60];
    plain[26..28].copy_from_slice(&[129, 164]);
    let mut records = [0u8; 2 * RECORD];
    entry::put_record(&plain, 0, 0, 0, 4095, &mut records, 0);
    entry::put_record(&plain, 0, 0, 0, 4096, &mut records, 1);
    records[120..124].fill(255);
    records
}

fn main(rt: HostRuntime) -> Result<()> {
    // what cannot be printed is left out
    let _ = tree_page(&rt);
    let _ = order_page(&rt);
    let _ = improper_page(&rt);
    let _ = show_long(&rt, &long_records(), &[b'a'; 4096]);
    Ok(())
}
