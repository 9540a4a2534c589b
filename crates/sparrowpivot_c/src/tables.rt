// What a record and a node of a lent store hold, so that no caller has to know their layout. Nothing here refuses: of a record or a node that is not there every
// value is 0.
ghost use Rattle.std.specs.Prelude.{◌≡◌, []};
ghost use Rattle.entry.specs.Paths.{lying_in};
ghost use Rattle.sparrowpivot.specs.Told.{told};
ghost use Rattle.sparrowpivot.specs.Tables.{tell_record, tell_stat, tell_node, node_id};
ghost use Rattle.format.specs.Format.{id_size};
ghost use Rattle.entry.specs.Record.{id_at};

// Record i: mode, flags, stage, where its path starts and ends in the path store, 1 if that lies in the path store, 1 if there is a record i, and the file's size.
#[unsafe(no_mangle)]
pub extern "C" fn sparrowpivot_record(
    records: &[u8],
    paths: &[u8],
    i: usize,
    values: &mut [u64; 8],
) -> u32
    ensures { told result values.new [] ≡ tell_record records.now (lying_in paths.now) i }
{
    sparrowpivot::tables::sparrowpivot_record(records, paths, i, values)
}

// Record i: seconds and nanoseconds of ctime and of mtime, dev, ino, uid, gid.
#[unsafe(no_mangle)]
pub extern "C" fn sparrowpivot_record_stat(records: &[u8], i: usize, values: &mut [u64; 8]) -> u32
    ensures { told result values.new [] ≡ tell_stat records.now i }
{
    sparrowpivot::tables::sparrowpivot_record_stat(records, i, values)
}

// The id of record i.
#[unsafe(no_mangle)]
pub extern "C" fn sparrowpivot_record_id(records: &[u8], i: usize, out: &mut [u8; format::ID_SIZE])
    ensures { out.new ≡ id_at id_size records.now i }
{
    sparrowpivot::tables::sparrowpivot_record_id(records, i, out);
}

// Node i: where its name starts and ends in the file, its entry count, its subtree count, its parent, and 1 if there is a node i. A count of -1, and the parent of
// the root, are 2^64 - 1.
#[unsafe(no_mangle)]
pub extern "C" fn sparrowpivot_node(nodes: &[u8], i: usize, values: &mut [u64; 8]) -> u32
    ensures { told result values.new [] ≡ tell_node nodes.now i }
{
    sparrowpivot::tables::sparrowpivot_node(nodes, i, values)
}

#[unsafe(no_mangle)]
pub extern "C" fn sparrowpivot_node_id(nodes: &[u8], i: usize, out: &mut [u8; format::ID_SIZE])
    ensures { out.new ≡ node_id nodes.now i }
{
    sparrowpivot::tables::sparrowpivot_node_id(nodes, i, out);
}
