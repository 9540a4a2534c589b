// Node tables of each kind, checked, sized and written: siblings in byte order, in git's own order, on several levels too, and in no order; more runs of
// names than there are tails kept; a table that is not in walk order; a chain of folders as deep as allowed, and one that is a folder deeper, which is not
// proper, and of which the upper folders are sized and written all the same. Of the chains a whole file is written too, and read back.

#![tactic(auto)]

use file::Reading;
use node::MINUS_ONE;
use replay::Row;
use std::io::Result;
use write::{Error, Options, Written};

// The nodes' names are parts of this.
const NAMES: &str = "abcdefghijklmnopqrst";

const NODE: usize = node::NODE_SIZE;

// A node that is out of date, so that it has no id.
fn stale(name: &'static str, subtrees: u64, parent: u64) -> Row {
    Row {
        name,
        count: MINUS_ONE,
        subtrees,
        parent,
    }
}

// Makes these rows the nodes of a table from the first on.
fn put_rows(nodes: &mut [u8], first: usize, rows: &[Row]) {
    for (i, row) in rows.iter().enumerate() {
        replay::put_row(NAMES, *row, nodes, first.saturating_add(i));
    }
}

// What the table is, whether it is proper, how many bytes its tree has, and the tree with a byte behind it, which stays as it was.
fn show_tree(rt: &impl Print, kind: &str, nodes: &[u8]) -> Result<()> {
    let names = NAMES.as_bytes();
    // an array, as each store here, since a vector could lack memory, and no answer is to depend on that
    let mut out = [255u8; 3584];
    let not = if proper::is_proper(nodes, names) {
        ""
    } else {
        "not "
    };
    let size = tree_write::tree_size(nodes, names);
    println!(rt; "{kind}: {not}proper {size}")?;
    tree_write::put_tree(nodes, names, &mut out, 0);
    replay::print_hex(rt, out.get(..=size).unwrap_or(&out))?;
    println!(rt)
}

// How many nodes of a file are read back.
fn show_read_back(rt: &impl Print, file: &[u8]) -> Result<()> {
    let mut nodes = [0u8; 36936];
    match file::read(file, &mut [], &mut [], &mut nodes) {
        Ok(Reading { tree, .. }) => {
            let used = tree.unwrap_or(0);
            println!(rt; "nodes read back: {used}")
        }
        Err(_) => Ok(()),
    }
}

// A file of no records with this tree: its size and how many nodes are read back, or that the table is not proper.
fn show_file(rt: &impl Print, nodes: &[u8]) -> Result<()> {
    let mut out = [0u8; 4096];
    // made here, as in each program that writes: what crate `replay` makes, the programs that only read have to wait for
    let only_tree = Options {
        tree: true,
        cache: true,
        eoie: false,
        sparse: false,
        unhashed: false,
    };
    match write::write_to(&[], &[], nodes, NAMES.as_bytes(), only_tree, &mut out) {
        Ok(Written { size, .. }) => {
            println!(rt; "file {size}")?;
            show_read_back(rt, out.get(..size).unwrap_or(&[]))
        }
        Err(Error::NotProper) => println!(rt; "refused 16"),
        Err(Error::PathOutside { .. } | Error::TooLarge | Error::ShortOutput { .. }) => println!(rt;
            "another refusal"
        ),
    }
}

// a with ab below it, b.
fn byte_order() -> [u8; 4 * NODE] {
    let rows = [
        stale("", 2, MINUS_ONE),
        stale("a", 1, 0),
        stale("ab", 0, 1),
        stale("b", 0, 0),
    ];
    let mut nodes = [0u8; 4 * NODE];
    put_rows(&mut nodes, 0, &rows);
    nodes
}

// b, ab, bc: the shorter first.
fn git_order() -> [u8; 4 * NODE] {
    let rows = [
        stale("", 3, MINUS_ONE),
        stale("b", 0, 0),
        stale("ab", 0, 0),
        stale("bc", 0, 0),
    ];
    let mut nodes = [0u8; 4 * NODE];
    put_rows(&mut nodes, 0, &rows);
    nodes
}

// c with q, pq and p below it, and p in that; ab with b, ab, b in one another; bc with p, q, ab below it, in p again q, op, and in q a. Below c there is no
// order, elsewhere the shorter stands first.
fn git_order_below() -> [u8; 17 * NODE] {
    let rows = [
        stale("", 3, MINUS_ONE),
        stale("c", 3, 0),
        stale("q", 0, 1),
        stale("pq", 0, 1),
        stale("p", 1, 1),
        stale("p", 0, 4),
        stale("ab", 1, 0),
        stale("b", 1, 6),
        stale("ab", 1, 7),
        stale("b", 0, 8),
        stale("bc", 3, 0),
        stale("p", 2, 10),
        stale("q", 0, 11),
        stale("op", 0, 11),
        stale("q", 1, 10),
        stale("a", 0, 14),
        stale("ab", 0, 10),
    ];
    let mut nodes = [0u8; 17 * NODE];
    put_rows(&mut nodes, 0, &rows);
    nodes
}

// So many folders in the root, by turns b and a: each a but the last begins a run that ends with the b behind it, and together they take all the tails that
// are kept.
const BY_TURNS: usize = 4094;

// By turns b and a in the root, and in the last of them c, b and a with d below it, for whose runs no tail is left.
fn put_many_runs(nodes: &mut [u8]) {
    let last = BY_TURNS as u64;
    put_rows(nodes, 0, &[stale("", last, MINUS_ONE)]);
    for i in 1..BY_TURNS {
        put_rows(nodes, i, &[stale(if i % 2 == 1 { "b" } else { "a" }, 0, 0)]);
    }
    let rows = [
        stale("a", 3, 0),
        stale("c", 0, last),
        stale("b", 0, last),
        stale("a", 1, last),
        stale("d", 0, last + 3),
    ];
    put_rows(nodes, BY_TURNS, &rows);
}

// Equal names go by their places, so this is no proper table; it is written all the same. Shown are its size and the bytes where the last a ends and
// the first b begins. Its stores are large, and main's frame is not to hold them while a chain is shown.
#[inline(never)]
fn show_many_runs(rt: &impl Print) -> Result<()> {
    let names = NAMES.as_bytes();
    let mut nodes = [0u8; (BY_TURNS + 5) * NODE];
    let mut out = [255u8; 28800];
    put_many_runs(&mut nodes);
    let size = tree_write::tree_size(&nodes, names);
    tree_write::put_tree(&nodes, names, &mut out, 0);
    println!(rt; "more runs than tails: {size}")?;
    replay::print_hex(rt, &out[14324..14387])?;
    println!(rt)
}

// bc, b with c below it, and one more.
fn no_order(last: &'static str) -> [u8; 5 * NODE] {
    let rows = [
        stale("", 3, MINUS_ONE),
        stale("bc", 0, 0),
        stale("b", 1, 0),
        stale("c", 0, 2),
        stale(last, 0, 0),
    ];
    let mut nodes = [0u8; 5 * NODE];
    put_rows(&mut nodes, 0, &rows);
    nodes
}

// a, b, and then ab below a.
fn no_walk_order() -> [u8; 4 * NODE] {
    let rows = [
        stale("", 2, MINUS_ONE),
        stale("a", 1, 0),
        stale("b", 0, 0),
        stale("ab", 0, 1),
    ];
    let mut nodes = [0u8; 4 * NODE];
    put_rows(&mut nodes, 0, &rows);
    nodes
}

// A folder in each folder, so many in all.
fn put_chain(nodes: &mut [u8], levels: usize) {
    put_rows(nodes, 0, &[stale("", 1, MINUS_ONE)]);
    for i in 1..levels {
        let below = u64::from(i + 1 < levels);
        put_rows(nodes, i, &[stale("a", below, i as u64 - 1)]);
    }
}

// The most folders of a chain: one more than are allowed.
const LEVELS: usize = 513;

// The chain of so many folders, and the file that has it for its tree.
fn show_chain(rt: &impl Print, kind: &str, levels: usize) -> Result<()> {
    let mut room = [0u8; LEVELS * NODE];
    put_chain(&mut room, levels);
    let nodes = room.get(..levels.saturating_mul(NODE)).unwrap_or(&room);
    show_tree(rt, kind, nodes)?;
    show_file(rt, nodes)
}

fn main(rt: HostRuntime) -> Result<()> {
    // what cannot be printed is left out
    let _ = show_tree(&rt, "byte order", &byte_order());
    let _ = show_tree(&rt, "git's order", &git_order());
    let _ = show_tree(&rt, "git's order on several levels", &git_order_below());
    let _ = show_many_runs(&rt);
    let _ = show_tree(&rt, "no order", &no_order("ab"));
    let _ = show_tree(&rt, "no order, a name twice", &no_order("bc"));
    let _ = show_tree(&rt, "not in walk order", &no_walk_order());
    let _ = show_chain(&rt, "a folder less than allowed", LEVELS - 2);
    let _ = show_chain(&rt, "as deep as allowed", LEVELS - 1);
    let _ = show_chain(&rt, "a folder too deep", LEVELS);
    Ok(())
}
