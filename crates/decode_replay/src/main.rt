// Replays answers of the Rust on short entry blocks: standard input has the cases that tests/make/decode_replay made, each with the Rust's answer, its records and its
// paths. The program reads each block, compares all of that, and names the known differences (docs/DIFFERENCES.md) and any other case that parts.

#![tactic(auto)]

ghost use Rattle.std.specs.Prelude.{◌<◌, length, IfSome};
ghost use Rattle.std.specs.Iterator.{at_most};

use decode::entries::{Before, Done, Error};
use std::io::Result;
use wire::{FileAt, PathAt};

// The most that is read of the list of cases.
const LIST_ROOM: usize = 131072;

// A case begins with eleven numbers, of two bytes each.
const NUMBERS: usize = 11;

const HEAD: usize = 22;

const RECORD: usize = 96;

// The refusal of an entry that is not spelled.
const NOT_SPELLED: u16 = 5;

// A known difference, by its name in docs/DIFFERENCES.md.
#[derive(Clone, Copy)]
enum Difference {
    D2,
    D3,
    D4,
    D16,
    Unnamed,
}

impl Difference {
    // The difference that a case's first number names; 0 names none.
    fn of(number: u16) -> Option<Difference> {
        match number {
            0 => None,
            2 => Some(Difference::D2),
            3 => Some(Difference::D3),
            4 => Some(Difference::D4),
            16 => Some(Difference::D16),
            _ => Some(Difference::Unnamed),
        }
    }
}

// What the Rust answers: where the entries end and whether the index is sparse, the entry that is not spelled, or what this reader never answers.
#[derive(Clone, Copy)]
enum Told {
    Done { next: u16, sparse: bool },
    NotSpelled(u16),
    Never,
}

impl Told {
    // What the numbers of a case say: 0 or a refusal's number, and what goes with it.
    fn of(number: u16, value: u16, sparse: u16, next: u16) -> Told {
        match (number, sparse) {
            (0, 0 | 1) => Told::Done {
                next,
                sparse: sparse == 1,
            },
            (NOT_SPELLED, _) => Told::NotSpelled(value),
            _ => Told::Never,
        }
    }
}

// An entry block and how it is to be read, and what the Rust makes of it: its answer, the records and the paths.
#[derive(Drop)]
struct Case<'a> {
    version: u16,
    count: u16,
    trailer: u16,
    block: &'a [u8],
    told: Told,
    records: &'a [u8],
    paths: &'a [u8],
}

fn numbers(head: &[u8; HEAD]) -> [u16; NUMBERS] {
    let mut numbers = [0; NUMBERS];
    for (number, pair) in numbers.iter_mut().zip(head.as_chunks::<2>().0) {
        *number = u16::from_be_bytes(*pair);
    }
    numbers
}

impl<'a> Case<'a> {
    // The case that the bytes begin with, and the bytes behind it.
    fn split_first(bytes: &'a [u8]) -> Option<(Case<'a>, &'a [u8])>
        ensures { IfSome result (λ parts. length parts.1.now < length bytes.now) }
    {
        let (head, rest) = bytes.split_first_chunk::<HEAD>()?;
        let [
            _,
            version,
            count,
            number,
            value,
            sparse,
            trailer,
            size,
            next,
            used,
            rows,
        ] = numbers(head);
        let (block, rest) = rest.split_at_checked(usize::from(size))?;
        let (records, rest) = rest.split_at_checked(usize::from(rows) * RECORD)?;
        let (paths, rest) = rest.split_at_checked(usize::from(used))?;
        let case = Case {
            version,
            count,
            trailer,
            block,
            told: Told::of(number, value, sparse, next),
            records,
            paths,
        };
        Some((case, rest))
    }

    // Whether this reader answers what the Rust answered.
    fn is_answered(&self, answer: std::result::Result<Done, Error>) -> bool {
        match (answer, self.told) {
            (Ok(run), Told::Done { next, sparse }) => {
                let ends_alike = run.next.0 == usize::from(next) && run.used.0 == self.paths.len();
                ends_alike && run.sparse == sparse
            }
            (Err(Error::NotSpelled(k)), Told::NotSpelled(index)) => k == usize::from(index),
            _ => false,
        }
    }

    // Whether this reader and the Rust agree: the answer, the records and the paths.
    fn agrees(&self) -> bool {
        // arrays, whose size is known, since the stores of all cases have one size and no memory can lack
        let mut records = [0u8; 768];
        let mut paths = [0u8; 512];
        let before = Before {
            used: PathAt(0),
            path: None,
        };
        let end = self.block.len().saturating_sub(usize::from(self.trailer));
        let answer = decode::entries::read_entries(
            self.block,
            FileAt(0),
            FileAt(end),
            u32::from(self.version),
            usize::from(self.count),
            0,
            before,
            &mut records,
            &mut paths,
        );
        self.is_answered(answer)
            && records.starts_with(self.records)
            && paths.starts_with(self.paths)
    }
}

// The cases of a list, each with its known difference, if any. Behind the list stand as many zeros as its room has left: a case that is
// cut short goes on with them, and one that reaches beyond them has no parts.
#[derive(Drop)]
struct Cases<'a> {
    rest: &'a [u8],
    zeros: usize,
}

impl<'a> Iterator for Cases<'a> {
    type Item = (Option<Difference>, Option<Case<'a>>);

    ghost remaining = { λ s. at_most (length s.rest.now) };

    fn next(&mut self) -> Option<(Option<Difference>, Option<Case<'a>>)> {
        if self.rest.len() <= self.zeros {
            return None;
        }
        let known = match self.rest.first_chunk::<HEAD>() {
            Some(head) => Difference::of(numbers(head)[0]),
            None => None,
        };
        if let Some((case, rest)) = Case::split_first(self.rest) {
            self.rest = rest;
            Some((known, Some(case)))
        } else {
            self.rest = &[];
            Some((known, None))
        }
    }
}

// Names case i where the two part, or agree in spite of a known difference.
fn show_case(rt: &impl Print, i: usize, known: Option<Difference>, agrees: bool) -> Result<()> {
    match (agrees, known) {
        (true, None) => Ok(()),
        (true, Some(_)) => println!(rt; "agreed after all: case {i}"),
        (false, Some(Difference::D2)) => println!(rt; "D2 (a number above 2^64 - 1): case {i}"),
        (false, Some(Difference::D3)) => {
            println!(rt; "D3 (padding behind the NUL of a length field of 4095): case {i}")
        }
        (false, Some(Difference::D4)) => println!(rt;
            "D4 (an entry that reaches into the trailer): case {i}"
        ),
        (false, Some(Difference::D16)) => println!(rt; "D16 (a NUL as the last byte): case {i}"),
        (false, Some(Difference::Unnamed) | None) => println!(rt; "not known: case {i}"),
    }
}

fn replay(rt: &impl Print, list: &[u8], zeros: usize) {
    let mut cases = 0usize;
    let mut same = 0usize;
    for (known, case) in (Cases { rest: list, zeros }) {
        let agrees = case.is_some_and(|case| case.agrees());
        // what cannot be printed is left out
        let _ = show_case(rt, cases, known, agrees);
        same = same.saturating_add(usize::from(agrees && known.is_none()));
        cases = cases.saturating_add(1);
    }
    let _ = println!(rt; "cases: {cases}");
    let _ = println!(rt; "the same answer, records and paths: {same}");
}

fn main(rt: HostRuntime) -> Result<()> {
    // an array, since a vector could lack memory, and no answer is to depend on that
    let mut room = [0u8; LIST_ROOM];
    let n = replay::fill(rt.stdin(), &mut room);
    replay(&rt, &room, LIST_ROOM - n);
    Ok(())
}
