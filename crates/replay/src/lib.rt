// What several of the programs do: they read their input, go over its cases, make node tables, and print bytes and refusals.
//
// No clause can say which bytes reach the system, so the functions that print have none; the stored output of each program shows what they print.
// The functions that answer a vector may run out of memory; that they succeed otherwise is shown by the same outputs.

#![tactic(auto)]

ghost use Rattle.std.specs.Prelude.{◌≡◌, ◌≤◌, ◌*◌, length, take, IfOk, IfSome, vec_len};
ghost use Rattle.std.specs.Iterator.{at_most};
ghost use Rattle.std.specs.Io.{StartsWith};
ghost use Rattle.replay.specs.Cases.{GivesFirst};
ghost use Rattle.replay.specs.Rows.{PutsRow};

use node::Node;
use std::alloc::{AllocError, Global};
use std::fs::File;
use std::io::{Read, Result};

// Reads into the room until it is full or the input ends, and answers how many bytes came. Where a read fails, the input ends there. Each read has all the room
// that is left, since of a packet the system throws away what a read has no room for.
pub fn fill<R: Read + Drop>(mut from: R, room: &mut [u8]) -> usize
    ensures bound { result ≤ length room.new }
    ensures kept { length room.new ≡ length room.old }
    ensures first { IfSome (R.remaining from) (λ xs. StartsWith xs (take result room.new)) }
{
    let mut filled = 0;
    while filled < room.len() {
        match from.read(&mut room[filled..]) {
            Ok(n) if n > 0 => filled += n,
            _ => return filled,
        }
    }
    filled
}

// Up to so many bytes of a reader. Where a read fails, the input ends there; only a lack of memory is an error.
pub fn read_up_to<R: Read + Drop>(from: R, most: usize, alloc: Global) -> Result<Vec<u8>>
    ensures bound { IfOk result (λ v. vec_len v ≤ most) }
    ensures first { IfOk result (λ v. IfSome (R.remaining from) (λ xs. StartsWith (take most xs) v.items)) }
{
    let mut bytes = vec![in alloc; 0u8; most]?;
    let size = fill(from, &mut bytes);
    bytes.truncate(size);
    Ok(bytes)
}

// Up to so many bytes of the file of that name; none where it cannot be opened, which is said on standard error.
pub fn load(rt: &HostRuntime, name: &str, most: usize) -> Result<Option<Vec<u8>>>
    ensures { IfOk result (λ r. IfSome r (λ v. vec_len v ≤ most)) }
{
    match File::open(rt, name) {
        Ok(file) => Ok(Some(read_up_to(file, most, rt.alloc())?)),
        Err(why) => {
            let _ = eprintln!(rt; "{name}: {why}");
            Ok(None)
        }
    }
}

// Prints bytes in hexadecimal digits, which the contract of `show::hex_byte` tells.
pub fn print_hex(rt: &impl Print, bytes: &[u8]) -> Result<()> {
    for byte in bytes {
        rt.write_all(&show::hex_byte(*byte))?;
    }
    Ok(())
}

// Prints the line of a refusal, with the value that it carries, if any.
pub fn print_refused(rt: &impl Print, number: u32, carried: Option<usize>) -> Result<()> {
    let mut line = [0u8; 64];
    let size = lines::write_refused(number, carried.map(|v| v as u64), &mut line);
    rt.write_all(line.get(..size).unwrap_or(&[]))
}

// The cases of a list, each with its length in two bytes before it. One that is cut short ends the list.
#[derive(Drop)]
pub struct Cases<'a> {
    rest: &'a [u8],
}

impl<'a> Cases<'a> {
    pub fn of(list: &'a [u8]) -> Cases<'a>
        ensures { result.rest.now ≡ list.now }
    {
        Cases { rest: list }
    }
}

impl<'a> Iterator for Cases<'a> {
    type Item = &'a [u8];

    ghost next_gives = { λ s r t. GivesFirst s.rest.now r t.rest.now };

    ghost remaining = { λ s. at_most (length s.rest.now) };

    fn next(&mut self) -> Option<&'a [u8]> {
        let (size, rest) = self.rest.split_first_chunk::<2>()?;
        let (case, rest) = rest.split_at_checked(u16::from_be_bytes(*size) as usize)?;
        self.rest = rest;
        Some(case)
    }
}

// A node of a table that a program makes: its name, which is a part of the table's names, its counts and its parent.
#[derive(Clone, Copy)]
pub struct Row {
    pub name: &'static str,
    pub count: u64,
    pub subtrees: u64,
    pub parent: u64,
}

// Makes a row node i of a table that is lent. Its id is the first twenty bytes of the names.
pub fn put_row(names: &str, row: Row, nodes: &mut [u8], i: usize)
    ensures { PutsRow names.now row nodes.old i nodes.new }
{
    let start = names.find(row.name).unwrap_or(0);
    let head = Node {
        start,
        stop: start.saturating_add(row.name.len()),
        count: row.count,
        subtrees: row.subtrees,
        id: 0,
        next: 20,
    };
    node::put_node(names.as_bytes(), head, row.parent, nodes, i);
}

// The node table of these rows.
pub fn node_table(
    alloc: Global,
    names: &str,
    rows: &[Row],
) -> std::result::Result<Vec<u8>, AllocError>
    ensures { IfOk result (λ v. vec_len v ≡ length rows.now * 72) }
{
    let mut nodes = vec![in alloc; 0u8; rows.len().saturating_mul(node::NODE_SIZE)]?;
    for (i, row) in rows.iter().enumerate() {
        put_row(names, *row, &mut nodes, i);
    }
    Ok(nodes)
}
