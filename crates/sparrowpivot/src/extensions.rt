// The extensions that speed up reading, and how many entries a file has room for. Nothing here refuses.
ghost use Rattle.std.specs.Prelude.{◌≡◌, []};
ghost use Rattle.format.specs.Format.{id_size};
ghost use Rattle.kind.specs.Sha1.{sha1_kind};
ghost use Rattle.decode.specs.Bounds.{max_entries};
ghost use Rattle.extension.specs.EndOfIndexEntry.{offset_in};
ghost use Rattle.extension.specs.IndexEntryOffsetTable.{table_from, pair_from};
ghost use Rattle.sparrowpivot.specs.Told.{told};
ghost use Rattle.sparrowpivot.specs.Extensions.{tell_offset, tell_table, tell_pair, extensions_from};

use wire::FileAt;

// The EOIE: 1 if there is one, and the offset at which extensions begin.
pub fn sparrowpivot_eoie(file: &[u8], values: &mut [u64; 8]) -> u32
    ensures { told result values.new [] ≡ tell_offset (offset_in sha1_kind file.now) }
{
    *values = match extension::end_of_index_entry::decode(file) {
        Some(place) => [1, place.0 as u64, 0, 0, 0, 0, 0, 0],
        None => [0; 8],
    };
    0
}

// The first IEOT of a file whose extensions begin at an offset: 1 if there is one, and how many pairs it has.
pub fn sparrowpivot_ieot_count(file: &[u8], offset: usize, values: &mut [u64; 8]) -> u32
    ensures { told result values.new [] ≡ tell_table (table_from id_size file.now offset) }
{
    *values = match extension::index_entry_offset_table::find(file, FileAt(offset)) {
        Some(n) => [1, n as u64, 0, 0, 0, 0, 0, 0],
        None => [0; 8],
    };
    0
}

// Pair number k of that table: 1 if there is one, where the block of entries begins, and how many it has.
pub fn sparrowpivot_ieot_pair(file: &[u8], offset: usize, k: usize, values: &mut [u64; 8]) -> u32
    ensures { told result values.new [] ≡ tell_pair (pair_from id_size file.now offset k) }
{
    *values = match extension::index_entry_offset_table::pair(file, FileAt(offset), k) {
        Some(pair) => {
            let from = pair.from_beginning_of_file as u64;
            [1, from, pair.num_entries as u64, 0, 0, 0, 0, 0]
        }
        None => [0; 8],
    };
    0
}

// Where the extensions begin, as a caller says it: not told where `told` is 0.
fn extensions_from(told: u32, offset: usize) -> Option<usize>
    ensures { result ≡ extensions_from told offset }
{
    if told == 0 {
        return None;
    }
    Some(offset)
}

// How many entries a file of so many bytes has room for at most.
pub fn sparrowpivot_max_entries(size: usize, told: u32, offset: usize, version: u32) -> u64
    ensures { result ≡ max_entries size (extensions_from told offset) version id_size }
{
    let from = extensions_from(told, offset);
    decode::entries::max_entries_possible(size, from, version) as u64
}
