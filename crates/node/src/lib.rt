// A node of the TREE extension: its head as the file spells it, and its 72 bytes in a lent node store. A node's bytes are where its name starts and ends in the
// file, its entry count, its subtree count and its parent, 64 bits each, and 32 bytes of id. All that is known of this layout is known here.

#![tactic(auto)]

ghost use Rattle.std.specs.Prelude.{◌≡◌, ◌+◌, ◌*◌, ◌-◌, ◌/◌, ◌≤◌, ◌<◌, length};
ghost use Rattle.std.proofs.Math.Seq.{paste};
ghost use Rattle.wire.specs.Places.{file_at};
ghost use Rattle.format.specs.Format.{id_size};
ghost use Rattle.node.specs.Head.{spaced_at, ended_at, head_at};
ghost use Rattle.node.specs.Store.{numbers_of, put_at, with_parent, word_at, name_start_at, name_end_at, count_at, subtrees_at, parent_at, id_at, name_inside, name_at, nodes_in};

use wire::{FileAt, Part, Signed};

// The bytes of a node in the store.
pub const NODE_SIZE: usize = 72;

// Where each part of a node stands in its bytes.
const NAME_START: usize = 0;

const NAME_END: usize = 8;

const COUNT: usize = 16;

const SUBTREES: usize = 24;

const PARENT: usize = 32;

const ID: usize = 40;

// The bytes that the store keeps for an id.
pub const ID_ROOM: usize = 32;

// The count of a node that is out of date, and the parent of the root: -1.
pub const MINUS_ONE: u64 = 18446744073709551615;

const DECIMAL: u64 = 10;

pub const COUNT_HALF: u64 = 2147483648;

const MOST_SUBTREES: u64 = 18446744073709551615;

// A node's head: its name from start to stop, its id from id to next, where its subtrees begin. A negative count has no id.
#[derive(Clone, Copy)]
pub struct Node {
    pub start: usize,
    pub stop: usize,
    pub count: u64,
    pub subtrees: u64,
    pub id: usize,
    pub next: usize,
}

// A space at `at`, and then the subtree count.
#[tactic(auto, unfolding(crate::specs::Head::spaced_at))]
fn spaced(part: Part, at: usize) -> Option<(u64, usize)>
    ensures { result ≡ spaced_at part.entry.bytes.now at part.entry.end }
{
    if part.end <= at || part.bytes[at] != b' ' {
        return None;
    }
    part.digits(at + 1, DECIMAL, MOST_SUBTREES)
}

// Behind the subtree count: a newline, and then an id of so many bytes.
#[tactic(auto, unfolding(crate::specs::Head::ended_at))]
fn ended(
    part: Part,
    start: usize,
    stop: usize,
    count: u64,
    bytes: usize,
    u: Option<(u64, usize)>,
) -> Option<Node>
    ensures { result ≡ ended_at part.entry.bytes.now part.entry.end start stop count bytes u }
{
    let (subtrees, at) = u?;
    if part.end <= at || part.bytes[at] != b'\n' {
        return None;
    }
    let id = at + 1;
    if part.end - id < bytes {
        return None;
    }
    Some(Node {
        start,
        stop,
        count,
        subtrees,
        id,
        next: id + bytes,
    })
}

// The head of the node at `at`, of a tree whose bytes end at `end`.
#[tactic(auto, using(crate::proofs::Laws::stop_less), unfolding(crate::specs::Head::head_at, crate::specs::Head::named_at, crate::specs::Head::counted_at))]
pub fn node_head(file: &[u8], at: usize, end: usize) -> Option<Node>
    ensures { result ≡ head_at id_size file.now at end }
{
    if file.len() < end {
        return None;
    }
    let part = Part { bytes: file, end };
    let stop = part.first_nul(at)?;
    let (counted, n) = part.signed_digits(stop + 1, DECIMAL, COUNT_HALF)?;
    let subtrees = spaced(part, n);
    match counted {
        Signed::Plain(count) => ended(part, at, stop, count, format::ID_SIZE, subtrees),
        Signed::Negative(_) => ended(part, at, stop, MINUS_ONE, 0, subtrees),
    }
}

// The five numbers of a node.
fn put_numbers(w: &mut [u8], n: Node, parent: u64)
    requires { 40 ≤ length w.old }
    ensures { w.new ≡ paste w.old 0 (numbers_of n parent) 40 }
{
    wire::put64(w, NAME_START, n.start as u64);
    wire::put64(w, NAME_END, n.stop as u64);
    wire::put64(w, COUNT, n.count);
    wire::put64(w, SUBTREES, n.subtrees);
    wire::put64(w, PARENT, parent);
}

// Writes node i, whose id stands in the file. It is made in an array first: the compiler knows that this overlaps neither slice. Where the store has no node i,
// or the id does not lie in the file or is too long, nothing is written.
#[tactic(auto, unfolding(crate::specs::Store::put_at))]
pub fn put_node(file: &[u8], n: Node, parent: u64, nodes: &mut [u8], i: usize)
    ensures { nodes.new ≡ put_at file.now n parent nodes.old i }
{
    if nodes.len() / NODE_SIZE <= i || n.next < n.id {
        return;
    }
    let bytes = n.next - n.id;
    if ID_ROOM < bytes || file.len() < n.next {
        return;
    }
    let mut w = [0u8; NODE_SIZE];
    put_numbers(&mut w, n, parent);
    slices::copy_bytes(file, n.id, bytes, &mut w, ID);
    slices::copy_bytes(&w, 0, NODE_SIZE, nodes, i * NODE_SIZE);
}

// Writes the parent of node i; nothing where there is no such node.
#[tactic(auto, unfolding(crate::specs::Store::with_parent))]
pub fn put_parent(nodes: &mut [u8], i: usize, parent: u64)
    ensures { nodes.new ≡ with_parent nodes.old i parent }
{
    if i < nodes.len() / NODE_SIZE {
        wire::put64(nodes, i * NODE_SIZE + PARENT, parent);
    }
}

// How many nodes a store has room for.
pub fn nodes_in(nodes: &[u8]) -> usize
    ensures { result ≡ nodes_in nodes.now }
{
    nodes.len() / NODE_SIZE
}

// The eight bytes at k of node i; 0 where there is no such node.
#[tactic(auto, unfolding(crate::specs::Store::word_at))]
fn word(nodes: &[u8], i: usize, k: usize) -> u64
    requires { k + 8 ≤ 72 }
    ensures { result ≡ word_at k nodes.now i }
{
    if i < nodes.len() / NODE_SIZE {
        wire::be64(nodes, i * NODE_SIZE + k)
    } else {
        0
    }
}

// Where the name of node i starts.
pub fn name_start(nodes: &[u8], i: usize) -> FileAt
    ensures { result ≡ file_at (name_start_at nodes.now i) }
{
    FileAt(word(nodes, i, NAME_START) as usize)
}

// Where the name of node i ends.
pub fn name_end(nodes: &[u8], i: usize) -> FileAt
    ensures { result ≡ file_at (name_end_at nodes.now i) }
{
    FileAt(word(nodes, i, NAME_END) as usize)
}

// The entry count of node i, -1 as 2^64 - 1.
pub fn count(nodes: &[u8], i: usize) -> u64
    ensures { result ≡ count_at nodes.now i }
{
    word(nodes, i, COUNT)
}

// How many subtrees node i has.
pub fn subtrees(nodes: &[u8], i: usize) -> u64
    ensures { result ≡ subtrees_at nodes.now i }
{
    word(nodes, i, SUBTREES)
}

// The parent of node i; 2^64 - 1 for the root.
pub fn parent(nodes: &[u8], i: usize) -> u64
    ensures { result ≡ parent_at nodes.now i }
{
    word(nodes, i, PARENT)
}

// The id of node i as the store has it, which is zeros for a node that was read and has none; empty where there is no such node.
#[tactic(auto, unfolding(crate::specs::Store::id_at))]
pub fn id(nodes: &[u8], i: usize) -> &[u8]
    ensures { result.now ≡ id_at id_size nodes.now i }
{
    if i < nodes.len() / NODE_SIZE {
        let from = i * NODE_SIZE + ID;
        let to = from + format::ID_SIZE;
        &nodes[from..to]
    } else {
        &nodes[0..0]
    }
}

// Whether the name of node i lies in the bytes that hold the names.
#[tactic(auto, unfolding(crate::specs::Store::name_inside, crate::specs::Store::is_part))]
pub fn name_inside(names: &[u8], nodes: &[u8], i: usize) -> bool
    ensures { result ≡ name_inside names.now nodes.now i }
{
    let start = word(nodes, i, NAME_START) as usize;
    let end = word(nodes, i, NAME_END) as usize;
    start <= end && end <= names.len()
}

// The name of node i; empty where it does not lie in the bytes that hold the names.
#[tactic(auto, unfolding(crate::specs::Store::name_at, crate::specs::Store::part_of, crate::specs::Store::is_part))]
pub fn name<'a, 'b>(names: &'a [u8], nodes: &'b [u8], i: usize) -> &'a [u8]
    ensures { result.now ≡ name_at names.now nodes.now i }
{
    let start = word(nodes, i, NAME_START) as usize;
    let end = word(nodes, i, NAME_END) as usize;
    if end < start || names.len() < end {
        return &names[0..0];
    }
    &names[start..end]
}
