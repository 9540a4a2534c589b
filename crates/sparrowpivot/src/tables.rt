// What a record and a node of a lent store hold, so that no caller has to know their layout. Nothing here refuses: of a record or a node that is not there every
// value is 0.
ghost use Rattle.std.specs.Prelude.{◌≡◌, []};
ghost use Rattle.format.specs.Format.{id_size};
ghost use Rattle.entry.specs.Paths.{lying_in};
ghost use Rattle.entry.specs.Record.{id_at};
ghost use Rattle.sparrowpivot.specs.Told.{told};
ghost use Rattle.sparrowpivot.specs.Tables.{tell_record, tell_stat, tell_node, node_id};

// Record i: mode, flags, stage, where its path starts and ends in the path store, 1 if that lies in the path store, 1 if there is a record i, and the file's size.
pub fn sparrowpivot_record(records: &[u8], paths: &[u8], i: usize, values: &mut [u64; 8]) -> u32
    ensures { told result values.new [] ≡ tell_record records.now (lying_in paths.now) i }
{
    let mode = entry::mode_at(records, i);
    let flags = entry::flags_at(records, i);
    let stage = entry::stage_at(records, i);
    let start = entry::path_start_at(records, i);
    let end = entry::path_end_at(records, i);
    let lies = entry::lies_inside(records, paths, i);
    let n = entry::records_in(records);
    let stat = entry::stat::stat_at(records, i);
    *values = [
        mode as u64,
        flags as u64,
        stage as u64,
        start,
        end,
        lies as u64,
        (i < n) as u64,
        stat.size as u64,
    ];
    0
}

// Record i: seconds and nanoseconds of ctime and of mtime, dev, ino, uid, gid.
pub fn sparrowpivot_record_stat(records: &[u8], i: usize, values: &mut [u64; 8]) -> u32
    ensures { told result values.new [] ≡ tell_stat records.now i }
{
    let stat = entry::stat::stat_at(records, i);
    let ctime = stat.ctime;
    let mtime = stat.mtime;
    *values = [
        ctime.secs as u64,
        ctime.nsecs as u64,
        mtime.secs as u64,
        mtime.nsecs as u64,
        stat.dev as u64,
        stat.ino as u64,
        stat.uid as u64,
        stat.gid as u64,
    ];
    0
}

// The id of record i.
pub fn sparrowpivot_record_id(records: &[u8], i: usize, out: &mut [u8; format::ID_SIZE])
    ensures { out.new ≡ id_at id_size records.now i }
{
    *out = entry::id_at(records, i);
}

// Node i: where its name starts and ends in the file, its entry count, its subtree count, its parent, and 1 if there is a node i. A count of -1, and the parent of
// the root, are 2^64 - 1.
pub fn sparrowpivot_node(nodes: &[u8], i: usize, values: &mut [u64; 8]) -> u32
    ensures { told result values.new [] ≡ tell_node nodes.now i }
{
    let first = node::name_start(nodes, i);
    let last = node::name_end(nodes, i);
    let start = first.0;
    let end = last.0;
    let count = node::count(nodes, i);
    let subtrees = node::subtrees(nodes, i);
    let parent = node::parent(nodes, i);
    let n = node::nodes_in(nodes);
    *values = [
        start as u64,
        end as u64,
        count,
        subtrees,
        parent,
        (i < n) as u64,
        0,
        0,
    ];
    0
}

// The id of node i as the store has it; zeros where there is no such node.
fn id_of_node(nodes: &[u8], i: usize) -> [u8; format::ID_SIZE]
    ensures { result ≡ node_id nodes.now i }
{
    let mut id = [0u8; format::ID_SIZE];
    if node::nodes_in(nodes) <= i {
        return id;
    }
    let part = node::id(nodes, i);
    slices::copy_bytes(part, 0, format::ID_SIZE, &mut id, 0);
    id
}

pub fn sparrowpivot_node_id(nodes: &[u8], i: usize, out: &mut [u8; format::ID_SIZE])
    ensures { out.new ≡ node_id nodes.now i }
{
    *out = id_of_node(nodes, i);
}
