// Replays what the Rust answers for IEOT and EOIE. Each line of `stdin` is a letter and bytes in hexadecimal digits: `i`, the body of an IEOT; `f` and `g`, a file
// whose extensions begin at 0 and at 12, in which IEOT is looked for; `e`, a file whose EOIE is asked for. The answers of `stdout` are the Rust's: tests/make/extension_replay
// made both files, with the oracle.

#![tactic(auto)]

ghost use Rattle.std.specs.Prelude.{◌≤◌, length};
ghost use Rattle.std.specs.Iterator.{at_most};

use extension::index_entry_offset_table::Offset;
use extension::{end_of_index_entry, index_entry_offset_table};
use std::io::Result;
use wire::FileAt;

// The most that is read of the list, and of the bytes of a line.
const LIST_ROOM: usize = 262144;

const LINE_ROOM: usize = 4096;

// The value of a hexadecimal digit; any other character has a value too.
fn digit(c: u8) -> u8 {
    match c {
        b'a'.. => (c - b'a') % 6 + 10,
        _ => c % 16,
    }
}

// Puts the bytes that the digits of a line spell, two for each, into a store, as far as that has room, and answers how many they are.
fn unhex(digits: &[[u8; 2]], bytes: &mut [u8]) -> usize
    ensures { result ≤ length bytes.new }
{
    for (byte, [high, low]) in bytes.iter_mut().zip(digits) {
        *byte = (digit(*high) << 4) | digit(*low);
    }
    digits.len().min(bytes.len())
}

// The lines of a list, each a letter and its pairs of digits, which go to the line's end, or as far as there is room.
#[derive(Drop)]
struct Lines<'a> {
    rest: &'a [u8],
}

impl<'a> Iterator for Lines<'a> {
    type Item = (u8, &'a [[u8; 2]]);

    ghost remaining = { λ s. at_most (length s.rest.now) };

    fn next(&mut self) -> Option<(u8, &'a [[u8; 2]])> {
        let (letter, text) = self.rest.split_first()?;
        let (pairs, _) = text.as_chunks::<2>();
        let digits = pairs
            .iter()
            .take(LINE_ROOM)
            .take_while(|pair| pair[0] != b'\n')
            .count();
        self.rest = text.get(digits * 2 + 1..).unwrap_or(&[]);
        Some((*letter, pairs.get(..digits).unwrap_or(&[])))
    }
}

// A pair, or a dash where there is none.
fn show_pair(rt: &impl Print, pair: Option<Offset>) -> Result<()> {
    match pair {
        None => print!(rt; " -"),
        Some(
            Offset {
                from_beginning_of_file,
                num_entries,
            },
        ) => print!(rt; " {from_beginning_of_file},{num_entries}"),
    }
}

// A table of so many pairs, and behind it what stands beyond its last pair.
fn show_table<F: Fn(usize) -> Option<Offset> + Drop>(
    rt: &impl Print,
    table: Option<usize>,
    pair_at: F,
) -> Result<()>
    requires { F.IsAlwaysCallable pair_at }
{
    match table {
        None => println!(rt; "none"),
        Some(n) => {
            print!(rt; "{n}")?;
            for k in 0..=n {
                show_pair(rt, pair_at(k))?;
            }
            println!(rt)
        }
    }
}

// The table that is a whole slice.
fn show_body(rt: &impl Print, body: &[u8]) -> Result<()> {
    let start = FileAt(0);
    let stop = FileAt(body.len());
    let table = index_entry_offset_table::decode(body, start, stop);
    show_table(
        rt,
        table,
        |k| index_entry_offset_table::pair_at(body, start, stop, k),
    )
}

// The first table of the extensions from an offset on.
fn show_found(rt: &impl Print, file: &[u8], from: FileAt) -> Result<()> {
    let table = index_entry_offset_table::find(file, from);
    show_table(rt, table, |k| index_entry_offset_table::pair(file, from, k))
}

fn show_end(rt: &impl Print, file: &[u8]) -> Result<()> {
    match end_of_index_entry::decode(file) {
        None => println!(rt; "none"),
        Some(FileAt(at)) => println!(rt; "{at}"),
    }
}

// The answer to a line.
fn show_answer(rt: &impl Print, letter: u8, bytes: &[u8]) -> Result<()> {
    match letter {
        b'i' => show_body(rt, bytes),
        b'f' => show_found(rt, bytes, FileAt(0)),
        b'g' => show_found(rt, bytes, FileAt(12)),
        _ => show_end(rt, bytes),
    }
}

fn main(rt: HostRuntime) -> Result<()> {
    // arrays, since a vector could lack memory, and no answer is to depend on that
    let mut room = [0u8; LIST_ROOM];
    let mut bytes = [0u8; LINE_ROOM];
    let n = replay::fill(rt.stdin(), &mut room);
    for (letter, digits) in (Lines { rest: &room[..n] }) {
        let size = unhex(digits, &mut bytes);
        // what cannot be printed is left out
        let _ = show_answer(&rt, letter, &bytes[..size]);
    }
    Ok(())
}
