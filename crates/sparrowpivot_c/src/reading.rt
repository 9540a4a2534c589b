// An index file, or its entries alone, read into lent stores.
ghost use Rattle.std.specs.Prelude.{◌≡◌, [], ◌∷◌, ◌-◌, length};
ghost use Rattle.format.specs.Format.{depth_limit, header_size, id_size};
ghost use Rattle.kind.specs.Sha1.{sha1_kind};
ghost use Rattle.file.specs.Read.{read_file};
ghost use Rattle.sparrowpivot.specs.Told.{told};
ghost use Rattle.sparrowpivot.specs.Reading.{tell_read, begin, tell_entries};
ghost use Rattle.wire.specs.Places.{file_at};
ghost use Rattle.decode.specs.Entries.{read_entries};

// Reads an index file into three lent stores. 0: read, with the version, 1 if the index is sparse, 1 if there is a tree, and how many records, path bytes and nodes
// are used; else the refusal's number, and as the first value what it carries.
#[unsafe(no_mangle)]
pub extern "C" fn sparrowpivot_read(
    file: &[u8],
    records: &mut [u8],
    paths: &mut [u8],
    nodes: &mut [u8],
    values: &mut [u64; 8],
) -> u32
    ensures { told result values.new (records.new ∷ paths.new ∷ nodes.new ∷ [])
        ≡ tell_read (read_file sha1_kind depth_limit file.now records.old paths.old nodes.old) }
{
    sparrowpivot::reading::sparrowpivot_read(file, records, paths, nodes, values)
}

// Reads count entries of an index between its header and its trailer. 0: read, with the place behind the entries, the path bytes used and 1 if the index is sparse
// as the first three values; else 01's number, and the entry's index as the first value. The other values are 0.
#[unsafe(no_mangle)]
pub extern "C" fn sparrowpivot_entries(
    file: &[u8],
    version: u32,
    count: usize,
    records: &mut [u8],
    paths: &mut [u8],
    values: &mut [u64; 8],
) -> u32
    ensures { told result values.new (records.new ∷ paths.new ∷ [])
        ≡ tell_entries
        (read_entries id_size file.now (file_at (length file.now - id_size)) version count 0 (file_at header_size) begin records.old paths.old) }
{
    sparrowpivot::reading::sparrowpivot_entries(file, version, count, records, paths, values)
}
