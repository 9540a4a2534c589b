// The extensions that speed up reading, and how many entries a file has room for. Nothing here refuses.
ghost use Rattle.std.specs.Prelude.{◌≡◌, []};
ghost use Rattle.kind.specs.Sha1.{sha1_kind};
ghost use Rattle.extension.specs.EndOfIndexEntry.{offset_in};
ghost use Rattle.sparrowpivot.specs.Told.{told};
ghost use Rattle.sparrowpivot.specs.Extensions.{tell_offset, tell_table, tell_pair, extensions_from};
ghost use Rattle.format.specs.Format.{id_size};
ghost use Rattle.extension.specs.IndexEntryOffsetTable.{table_from, pair_from};
ghost use Rattle.decode.specs.Bounds.{max_entries};

// The EOIE: 1 if there is one, and the offset at which extensions begin.
#[unsafe(no_mangle)]
pub extern "C" fn sparrowpivot_eoie(file: &[u8], values: &mut [u64; 8]) -> u32
    ensures { told result values.new [] ≡ tell_offset (offset_in sha1_kind file.now) }
{
    sparrowpivot::extensions::sparrowpivot_eoie(file, values)
}

// The first IEOT of a file whose extensions begin at an offset: 1 if there is one, and how many pairs it has.
#[unsafe(no_mangle)]
pub extern "C" fn sparrowpivot_ieot_count(file: &[u8], offset: usize, values: &mut [u64; 8]) -> u32
    ensures { told result values.new [] ≡ tell_table (table_from id_size file.now offset) }
{
    sparrowpivot::extensions::sparrowpivot_ieot_count(file, offset, values)
}

// Pair number k of that table: 1 if there is one, where the block of entries begins, and how many it has.
#[unsafe(no_mangle)]
pub extern "C" fn sparrowpivot_ieot_pair(
    file: &[u8],
    offset: usize,
    k: usize,
    values: &mut [u64; 8],
) -> u32
    ensures { told result values.new [] ≡ tell_pair (pair_from id_size file.now offset k) }
{
    sparrowpivot::extensions::sparrowpivot_ieot_pair(file, offset, k, values)
}

// How many entries a file of so many bytes has room for at most.
#[unsafe(no_mangle)]
pub extern "C" fn sparrowpivot_max_entries(
    size: usize,
    told: u32,
    offset: usize,
    version: u32,
) -> u64
    ensures { result ≡ max_entries size (extensions_from told offset) version id_size }
{
    sparrowpivot::extensions::sparrowpivot_max_entries(size, told, offset, version)
}
