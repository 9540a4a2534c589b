// Reads small files that were put together by hand (tests/make/refusal_replay says how, byte by byte) and shows of each the answer, the listing, the first nodes of its tree,
// and what became of the three stores: how many bytes were lent, how many of them are not as they were, and how many bytes of the node store are zero. Every byte of a
// store is LENT before. First come files that are lent a room of their own, then those that its arguments name.

#![tactic(auto)]

use file::Reading;
use std::alloc::{AllocError, Global};
use std::env;
use std::io::Result;

// What each byte of a store is before the reader is called.
const LENT: u8 = 238;

// The most that is read of a file.
const MOST_BYTES: usize = 4096;

// How many bytes each store is lent.
#[derive(Clone, Copy)]
struct Room {
    records: usize,
    paths: usize,
    nodes: usize,
}

// Three records, 64 path bytes and three nodes.
const ROOM: Room = Room {
    records: 288,
    paths: 64,
    nodes: 216,
};

// The same, but with as many nodes as a tree may be deep.
const DEEP_ROOM: Room = Room {
    records: 288,
    paths: 64,
    nodes: 36864,
};

// The three stores.
#[derive(Drop)]
struct Stores {
    records: Vec<u8>,
    paths: Vec<u8>,
    nodes: Vec<u8>,
}

impl Stores {
    fn new(alloc: Global, room: Room) -> std::result::Result<Stores, AllocError> {
        Ok(Stores {
            records: vec![in alloc; LENT; room.records]?,
            paths: vec![in alloc; LENT; room.paths]?,
            nodes: vec![in alloc; LENT; room.nodes]?,
        })
    }

    fn show(&self, rt: &impl Print) -> Result<()> {
        let (records, paths, nodes) = (self.records.len(), self.paths.len(), self.nodes.len());
        print!(rt; "lent {records} {paths} {nodes}")?;
        let (records, paths, nodes) = (
            changed(&self.records),
            changed(&self.paths),
            changed(&self.nodes),
        );
        print!(rt; ", changed {records} {paths} {nodes}")?;
        let zeros = self.nodes.iter().filter(|byte| **byte == 0).count();
        println!(rt; ", node bytes zero {zeros}")
    }
}

// How many bytes of a store are not as they were.
fn changed(store: &[u8]) -> usize {
    store.iter().filter(|byte| **byte != LENT).count()
}

// Node i: its name, its counts and its parent, -1 as 2^64 - 1.
fn show_node(rt: &impl Print, file: &[u8], nodes: &[u8], i: usize) -> Result<()> {
    let (count, subtrees, parent) = (
        node::count(nodes, i),
        node::subtrees(nodes, i),
        node::parent(nodes, i),
    );
    print!(rt; "node '")?;
    rt.write_all(node::name(file, nodes, i))?;
    println!(rt; "' {count} {subtrees} {parent}")
}

// The numbers of a file that was read, and the first three of its nodes.
fn show_read(rt: &impl Print, read: Reading, file: &[u8], nodes: &[u8]) -> Result<()> {
    let Reading {
        version,
        sparse,
        records,
        path_bytes,
        tree,
    } = read;
    let (sparse, there, used) = (
        u8::from(sparse),
        u8::from(tree.is_some()),
        tree.unwrap_or(0),
    );
    print!(rt; "version {version}, sparse {sparse}, tree {there}")?;
    println!(rt; ", records, path bytes, nodes {records} {path_bytes} {used}")?;
    for i in 0..used.min(3) {
        show_node(rt, file, nodes, i)?;
    }
    Ok(())
}

// Reads a file into stores of so many bytes, and shows what came of it, with the lines that the listing program prints.
fn show_file(rt: &impl Print, file: &[u8], mut stores: Stores) -> Result<()> {
    let answer = file::read(
        file,
        &mut stores.records,
        &mut stores.paths,
        &mut stores.nodes,
    );
    if let Ok(read) = answer {
        show_read(rt, read, file, &stores.nodes)?;
    }
    // what is lent is a store of a fixed size, here and below
    let mut out = [0u8; 4096];
    let size = list_text::write_lines(answer, &stores.records, &stores.paths, &mut out);
    rt.write_all(out.get(..size).unwrap_or(&[]))?;
    stores.show(rt)
}

// Shows a file by its name. What cannot be printed is left out.
fn show(rt: &HostRuntime, name: &str, room: Room) -> Result<()> {
    let _ = println!(rt; "== {name}");
    if let Some(file) = replay::load(rt, name, MOST_BYTES)? {
        let stores = Stores::new(rt.alloc(), room)?;
        let _ = show_file(rt, &file, stores);
    }
    Ok(())
}

// Rooms too small by one, and as small as will do.
fn show_entry_rooms(rt: &HostRuntime) -> Result<()> {
    show(
        rt,
        "page-one-line",
        Room {
            records: 95,
            ..ROOM
        },
    )?;
    show(rt, "page-one-line", Room { paths: 0, ..ROOM })?;
    show(
        rt,
        "page-one-line",
        Room {
            records: 96,
            paths: 1,
            nodes: 0,
        },
    )?;
    show(
        rt,
        "r6-second",
        Room {
            records: 191,
            ..ROOM
        },
    )?;
    show(rt, "r6-second", Room { paths: 2, ..ROOM })?;
    show(
        rt,
        "r6-second",
        Room {
            records: 192,
            paths: 3,
            nodes: 0,
        },
    )?;
    show(
        rt,
        "r5-before-r6",
        Room {
            records: 0,
            paths: 0,
            nodes: 0,
        },
    )
}

fn show_node_rooms(rt: &HostRuntime) -> Result<()> {
    show(rt, "r10-no-node", Room { nodes: 71, ..ROOM })?;
    show(rt, "r10-no-node", Room { nodes: 72, ..ROOM })?;
    show(rt, "r10-second", Room { nodes: 72, ..ROOM })?;
    show(rt, "r10-second", Room { nodes: 144, ..ROOM })?;
    show(rt, "D8", DEEP_ROOM)?;
    show(
        rt,
        "D8",
        Room {
            nodes: 36863,
            ..ROOM
        },
    )?;
    show(rt, "r9-not-at-512", DEEP_ROOM)?;
    show(rt, "r9-after-entry", DEEP_ROOM)
}

fn show_listing(rt: &impl Print, file: &[u8]) -> Result<()> {
    let size_of_file = file.len();
    println!(rt; "== {size_of_file} zeros")?;
    let mut out = [0u8; 4096];
    let size = list_text::list_file(file, &mut out);
    rt.write_all(out.get(..size).unwrap_or(&[]))
}

// Input of 65,536 bytes is read, and longer input is not.
fn show_too_big(rt: &impl Print) {
    let zeros = [0u8; 65537];
    let _ = show_listing(rt, &zeros[1..]);
    let _ = show_listing(rt, &zeros);
}

fn main(rt: HostRuntime) -> Result<()> {
    show_entry_rooms(&rt)?;
    show_node_rooms(&rt)?;
    show_too_big(&rt);
    for name in env::args(&rt)?.skip(1) {
        show(&rt, name.as_str(), ROOM)?;
    }
    Ok(())
}
