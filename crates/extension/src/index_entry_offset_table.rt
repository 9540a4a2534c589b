// IEOT, the table of blocks of entries: version 1, and then pairs of a block's offset and its number of entries.
ghost use Rattle.std.specs.Prelude.{◌≡◌};
ghost use Rattle.format.specs.Format.{id_size};
ghost use Rattle.extension.specs.IndexEntryOffsetTable.{table_at, table_in, table_from, pair_in, pair_from};

use crate::IEOT;
use crate::iter::Body;
use wire::FileAt;

const VERSION: u32 = 1;

// How many bytes the version takes, and a pair.
const VERSION_SIZE: usize = 4;

const PAIR_SIZE: usize = 8;

// A pair: where a block of entries begins, and how many it has.
#[derive(Clone, Copy)]
pub struct Offset {
    pub from_beginning_of_file: u32,
    pub num_entries: u32,
}

// How many pairs the table has that lies from `start` up to `stop`, if that is one; none has no pair. The ends are two, here and in `pair_at`, as the definition
// `table_at` takes them.
#[tactic(auto, unfolding(crate::specs::IndexEntryOffsetTable::table_at))]
pub fn decode(file: &[u8], start: FileAt, stop: FileAt) -> Option<usize>
    ensures { result ≡ table_at file.now start.0 stop.0 }
{
    let at = start.0;
    let end = stop.0;
    if file.len() < end || end < at {
        return None;
    }
    let size = end - at;
    if size < VERSION_SIZE || wire::be32(file, at) != VERSION {
        return None;
    }
    let rest = size - VERSION_SIZE;
    if rest / PAIR_SIZE == 0 || rest % PAIR_SIZE != 0 {
        return None;
    }
    Some(rest / PAIR_SIZE)
}

// Where the first IEOT's body lies among the extensions from an offset on, in front of the trailer.
#[tactic(auto, unfolding(crate::specs::IndexEntryOffsetTable::table_in))]
fn body(file: &[u8], offset: FileAt) -> Option<Body>
    ensures { result ≡ table_in id_size file.now offset.0 }
{
    if file.len() < format::ID_SIZE {
        return None;
    }
    let end = file.len() - format::ID_SIZE;
    if end < offset.0 {
        return None;
    }
    crate::iter::first_of(file, offset, FileAt(end), IEOT)
}

// How many pairs the first IEOT has, in a file whose extensions begin at an offset.
#[tactic(auto, unfolding(crate::specs::IndexEntryOffsetTable::table_from))]
pub fn find(file: &[u8], offset: FileAt) -> Option<usize>
    ensures { result ≡ table_from id_size file.now offset.0 }
{
    let Body { start, stop } = body(file, offset)?;
    decode(file, start, stop)
}

// Pair number k of the table that lies from `start` up to `stop`.
#[tactic(auto, using(crate::proofs::Laws::pair_inside), unfolding(crate::specs::IndexEntryOffsetTable::pair_in))]
pub fn pair_at(file: &[u8], start: FileAt, stop: FileAt, k: usize) -> Option<Offset>
    ensures { result ≡ pair_in file.now start.0 stop.0 k }
{
    let n = decode(file, start, stop)?;
    if n <= k {
        return None;
    }
    let at = start.0 + VERSION_SIZE + k * PAIR_SIZE;
    Some(Offset {
        from_beginning_of_file: wire::be32(file, at),
        num_entries: wire::be32(file, at + 4),
    })
}

// Pair number k of the first IEOT, in a file whose extensions begin at an offset.
#[tactic(auto, unfolding(crate::specs::IndexEntryOffsetTable::pair_from))]
pub fn pair(file: &[u8], offset: FileAt, k: usize) -> Option<Offset>
    ensures { result ≡ pair_from id_size file.now offset.0 k }
{
    let Body { start, stop } = body(file, offset)?;
    pair_at(file, start, stop, k)
}
