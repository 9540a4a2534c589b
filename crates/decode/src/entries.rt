// How many entries a file has room for, and the entries of an index read into two lent stores of bytes: 96 for each record, and the paths one behind the other.
// Each entry is measured before anything is written, so a refusal leaves the entries before it and nothing else.
ghost use Rattle.std.specs.Prelude.{◌≡◌, ◌+◌, ◌-◌, ◌*◌, ◌≤◌, length};
ghost use Rattle.std.specs.Option.{unwrap_or};
ghost use Rattle.format.specs.Format.{id_size, id_room};
ghost use Rattle.decode.specs.Bounds.{block_size, min_entry_size, max_entries};
ghost use Rattle.decode.specs.Entries.{RoomFor, with_record, with_path, outcome, run_of, read_entries};

use measure::Unspelled;
use wire::{FileAt, PathAt};

// An entry's fixed part but for the id: ten fields of 32 bits and 16 flag bits.
const SANS_ID: usize = 42;

// The bytes between the header and the extensions, or the trailer where it is not told where these begin.
#[tactic(auto, unfolding(crate::specs::Bounds::block_size))]
fn entries_block_size_in_bytes(size: usize, extensions: Option<usize>, id: usize) -> usize
    ensures { result ≡ block_size size extensions id }
{
    let end = extensions.unwrap_or(sums::saturating_sub(size, id));
    sums::saturating_sub(end, format::HEADER_SIZE)
}

// The least that an entry takes: the fixed part to a multiple of 8, or in version 4 with a strip of one byte and a NUL.
#[tactic(auto, unfolding(crate::specs::Bounds::min_entry_size))]
fn min_entry_size_in_bytes(version: u32, id: usize) -> usize
    requires { id ≤ id_room }
    ensures { result ≡ min_entry_size version id }
{
    let fixed = SANS_ID + id;
    match version {
        4 => fixed + 2,
        _ => fixed.next_multiple_of(8),
    }
}

// How many entries the file has room for at most, where its extensions begin at a place or that is not told. It refuses nothing.
#[tactic(auto, unfolding(crate::specs::Bounds::max_entries, crate::specs::Bounds::min_entry_size))]
pub fn max_entries_possible(size: usize, extensions: Option<usize>, version: u32) -> usize
    ensures { result ≡ max_entries size extensions version id_size }
{
    let block = entries_block_size_in_bytes(size, extensions, format::ID_SIZE);
    let least = min_entry_size_in_bytes(version, format::ID_SIZE);
    block / least
}

// What stands before a run: how much of the path store is in use, and how many bytes the path before has, which are the last of these, if there is one.
#[derive(Clone, Copy)]
pub struct Before {
    pub used: PathAt,
    pub path: Option<usize>,
}

// A run that was read: where it ends, how much of the path store is in use, and whether it makes the index sparse.
#[derive(Clone, Copy)]
pub struct Done {
    pub next: FileAt,
    pub used: PathAt,
    pub sparse: bool,
}

// Why a run was not read, with the number of the entry.
#[derive(Clone, Copy)]
pub enum Error {
    NotSpelled(usize),
    NoRoom(usize),
}

// An entry that is stored: where it stands in the file and its flags; how many bytes of the path before, of `prev`, it keeps, and where those stand that it adds,
// `len` of them; how much of the path store is in use; and its number.
#[derive(Drop)]
pub struct Stored {
    pub at: usize,
    pub flags: u32,
    pub keep: usize,
    pub suffix: usize,
    pub len: usize,
    pub prev: usize,
    pub used: usize,
    pub index: usize,
}

// Stores an entry: its record, and its path behind the others.
fn store(file: &[u8], e: Stored, records: &mut [u8], paths: &mut [u8])
    requires { RoomFor file.now paths.old e }
    ensures records_after { records.new ≡ with_record id_size file.now e records.old }
    ensures paths_after { paths.new ≡ with_path file.now e paths.old }
{
    let Stored {
        at,
        flags,
        keep,
        suffix,
        len,
        prev,
        used,
        index,
    } = e;
    let from = used - prev;
    let to = used + keep;
    let size = keep + len;
    let stop = used + size;
    slices::copy_within(paths, from, keep, used);
    slices::copy_bytes(file, suffix, len, paths, to);
    entry::put_record(file, at, flags, used, stop, records, index);
}

// A run of `count` entries from `from` on, which have to end at or before `end`; the first of them is number `index`.
#[derive(Drop)]
pub struct Run {
    pub from: FileAt,
    pub end: FileAt,
    pub version: u32,
    pub count: usize,
    pub index: usize,
}

// Reads a run, with what stands before it.
fn run_entries(
    file: &[u8],
    r: Run,
    b: Before,
    records: &mut [u8],
    paths: &mut [u8],
) -> Result<Done, Error>
    requires { (b.used.0 ≤ length paths.old) × (unwrap_or b.path 0 ≤ b.used.0) }
    ensures { outcome result records.new paths.new ≡ run_of id_size file.now r b records.old paths.old }
{
    let slots = entry::records_in(records);
    let mut at = r.from;
    let mut used = b.used;
    let mut path = b.path;
    let mut sparse = false;
    for k in 0..r.count {
        let index = r.index + k;
        let m = match measure::measure(file, at, r.end, r.version, path) {
            Ok(m) => m,
            Err(Unspelled::Short) => return Err(Error::NotSpelled(index)),
            Err(Unspelled::Fault) => return Err(Error::NotSpelled(index)),
        };
        let size = m.keep + m.len;
        if slots <= index || paths.len() - used.0 < size {
            return Err(Error::NoRoom(index));
        }
        let e = Stored {
            at: at.0,
            flags: m.flags,
            keep: m.keep,
            suffix: m.suffix.0,
            len: m.len,
            prev: path.unwrap_or(0),
            used: used.0,
            index,
        };
        store(file, e, records, paths);
        sparse = sparse || entry::mode::is_dir(file, at.0);
        used = PathAt(used.0 + size);
        path = Some(size);
        at = m.next;
    }
    Ok(Done {
        next: at,
        used,
        sparse,
    })
}

// Reads count entries from `from` on, which have to end at or before `end`; the first of them is number `index`. A place past the path store counts as its end,
// and a path before that is longer than what is in use counts as all of that. The version stays a number, since `sparrowpivot_entries` takes any: all but 4 are read
// as 2 and 3 are.
#[tactic(auto, unfolding(crate::specs::Entries::read_entries))]
pub fn read_entries(
    file: &[u8],
    from: FileAt,
    end: FileAt,
    version: u32,
    count: usize,
    index: usize,
    before: Before,
    records: &mut [u8],
    paths: &mut [u8],
) -> Result<Done, Error>
    ensures { outcome result records.new paths.new
        ≡ read_entries id_size file.now end version count index from before records.old paths.old }
{
    let used = before.used.0.min(paths.len());
    let r = Run {
        from,
        end,
        version,
        count,
        index,
    };
    let b = Before {
        used: PathAt(used),
        path: before.path.map(|length| length.min(used)),
    };
    run_entries(file, r, b, records, paths)
}
