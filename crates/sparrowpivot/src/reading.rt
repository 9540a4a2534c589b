// An index file, or its entries alone, read into lent stores.
ghost use Rattle.std.specs.Prelude.{◌≡◌, [], ◌∷◌, ◌-◌, length};
ghost use Rattle.wire.specs.Places.{file_at};
ghost use Rattle.format.specs.Format.{depth_limit, header_size, id_size};
ghost use Rattle.kind.specs.Sha1.{sha1_kind};
ghost use Rattle.decode.specs.Entries.{read_entries};
ghost use Rattle.file.specs.Answer.{carried_of};
ghost use Rattle.file.specs.Read.{read_file};
ghost use Rattle.sparrowpivot.specs.Told.{told, eight};
ghost use Rattle.sparrowpivot.specs.Reading.{begin, tell_read, tell_entries};

use decode::entries::{Before, Error as RunError};
use file::{Error, Reading};
use wire::{FileAt, PathAt};

// What was read, or what a refusal carries.
fn read_values(a: Result<Reading, Error>) -> [u64; 8]
    ensures { result ≡ eight (carried_of a) }
{
    match a {
        Ok(read) => [
            read.version as u64,
            read.sparse as u64,
            read.tree.is_some() as u64,
            read.records as u64,
            read.path_bytes as u64,
            read.tree.unwrap_or(0) as u64,
            0,
            0,
        ],
        Err(_) => [file::carried(a).unwrap_or(0), 0, 0, 0, 0, 0, 0, 0],
    }
}

// Reads an index file into three lent stores. 0: read, with the version, 1 if the index is sparse, 1 if there is a tree, and how many records, path bytes and nodes
// are used; else the refusal's number, and as the first value what it carries.
pub fn sparrowpivot_read(
    file: &[u8],
    records: &mut [u8],
    paths: &mut [u8],
    nodes: &mut [u8],
    values: &mut [u64; 8],
) -> u32
    ensures { told result values.new (records.new ∷ paths.new ∷ nodes.new ∷ [])
        ≡ tell_read (read_file sha1_kind depth_limit file.now records.old paths.old nodes.old) }
{
    let a = file::read(file, records, paths, nodes);
    let all = read_values(a);
    *values = all;
    file::number(a)
}

// Reads count entries of an index between its header and its trailer. 0: read, with the place behind the entries, the path bytes used and 1 if the index is sparse
// as the first three values; else 01's number, and the entry's index as the first value. The other values are 0.
pub fn sparrowpivot_entries(
    file: &[u8],
    version: u32,
    count: usize,
    records: &mut [u8],
    paths: &mut [u8],
    values: &mut [u64; 8],
) -> u32
    ensures { told result values.new (records.new ∷ paths.new ∷ [])
        ≡ tell_entries
        (read_entries id_size file.now (file_at (length file.now - id_size)) version count 0 (file_at header_size) begin records.old paths.old) }
{
    let end = sums::saturating_sub(file.len(), format::ID_SIZE);
    let before = Before {
        used: PathAt(0),
        path: None,
    };
    let a = decode::entries::read_entries(
        file,
        FileAt(format::HEADER_SIZE),
        FileAt(end),
        version,
        count,
        0,
        before,
        records,
        paths,
    );
    match a {
        Ok(run) => {
            let end = run.next.0 as u64;
            *values = [end, run.used.0 as u64, run.sparse as u64, 0, 0, 0, 0, 0];
            0
        }
        Err(RunError::NotSpelled(k)) => {
            *values = [k as u64, 0, 0, 0, 0, 0, 0, 0];
            refusal::NOT_SPELLED
        }
        Err(RunError::NoRoom(k)) => {
            *values = [k as u64, 0, 0, 0, 0, 0, 0, 0];
            refusal::NO_ENTRY_ROOM
        }
    }
}
