// The entries of a table: sized in one pass over it, and written in another.

#![tactic(auto)]

ghost use Rattle.std.specs.Prelude.{◌≡◌, ◌+◌, ◌*◌, ◌-◌, ◌/◌, ◌≤◌, ◌<◌, ◌++◌, length};
ghost use Rattle.laws.specs.Put.{put};
ghost use Rattle.wire.specs.BigEndian.{bytes_of};
ghost use Rattle.format.specs.Format.{id_size};
ghost use Rattle.entry.specs.Flags.{bit, removed, to_storage, extended_to_storage};
ghost use Rattle.entry.specs.Paths.{lying_in};
ghost use Rattle.entry.specs.Record.{records_in, flags_at, path_at};
ghost use Rattle.write_entries.specs.Entries.{fault_at, stated, fixed_of, front_at, whole_of, entry_of, bytes_at, kept_of, version_with, size_table, put_one, put_table};

// What sizing comes to: the version, a number as C is told it, how many records are written, and into how many bytes with the header.
#[derive(Clone, Copy)]
pub struct Sized {
    pub version: u32,
    pub count: usize,
    pub size: usize,
}

// The first record whose path is not in the store.
#[derive(Clone, Copy)]
pub struct Outside {
    pub index: usize,
}

// An entry's length is a multiple of this.
const ENTRY_ALIGN: usize = 8;

// The length that an entry states of a path of len bytes.
fn stated_length(len: usize) -> u16
    ensures { result ≡ stated len }
{
    len.min(format::LONG_PATH) as u16
}

fn fixed_size(flags: u32) -> usize
    ensures { result ≡ fixed_of id_size flags }
{
    if entry::flags::is_extended(flags) {
        format::FIXED_EXTENDED_SIZE
    } else {
        format::FIXED_SIZE
    }
}

// How many bytes the entry of a path has: at least one NUL stands behind the path, up to the next multiple of 8. Written out: with `next_multiple_of` sizing a table
// took half as many instructions more.
fn entry_size(flags: u32, path: &[u8]) -> usize
    ensures { result ≡ whole_of (fixed_of id_size flags) (length path.now) }
{
    (fixed_size(flags) + path.len() + ENTRY_ALIGN) / ENTRY_ALIGN * ENTRY_ALIGN
}

// Record i of a table, whose paths lie in a store.
#[derive(Clone, Copy)]
struct Record<'a> {
    records: &'a [u8],
    paths: &'a [u8],
    i: usize,
    ghost in_table: { i < records_in records.now },
}

impl<'a> Record<'a> {
    fn flags(self) -> u32
        ensures { result ≡ flags_at self.entry.records.now self.entry.i }
    {
        entry::flags_at(self.records, self.i)
    }

    fn path(self) -> &'a [u8]
        ensures { result.now ≡ path_at self.entry.records.now (lying_in self.entry.paths.now) self.entry.i }
    {
        entry::path_of(self.records, self.paths, self.i)
    }

    // Whether it is marked REMOVE, so that it is not written. A function of its own: where sizing tests it several times, the compiler then sees one test.
    fn is_removed(self) -> bool
        ensures { result ≡ bit removed (flags_at self.entry.records.now self.entry.i) }
    {
        entry::flags::is_removed(self.flags())
    }

    // Whether it is to be written and its path does not lie in the store.
    fn has_fault(self) -> bool
        ensures { result ≡ fault_at self.entry.records.now (lying_in self.entry.paths.now) self.entry.i }
    {
        if self.is_removed() {
            return false;
        }
        !entry::lies_inside(self.records, self.paths, self.i)
    }

    // 1 if it is written.
    fn count(self) -> usize
        ensures { result ≡ kept_of self.entry.records.now self.entry.i }
    {
        if self.is_removed() { 0 } else { 1 }
    }

    // How many bytes are written of it.
    fn size(self) -> usize
        ensures { result ≡ length (bytes_at id_size self.entry.records.now (lying_in self.entry.paths.now) self.entry.i) }
    {
        if self.is_removed() {
            return 0;
        }
        entry_size(self.flags(), self.path())
    }

    // Its bytes before a path of len bytes, with the 16 bits behind EXTENDED in any case. They are made in an array: the compiler knows that this overlaps
    // neither slice.
    fn head(self, flags: u32, len: usize) -> [u8; format::FIXED_EXTENDED_SIZE]
        ensures { result ≡ (front_at id_size self.entry.records.now self.entry.i ++ bytes_of 2 (to_storage flags + stated len)) ++ bytes_of 2 (extended_to_storage flags) }
    {
        let word = entry::flags::to_storage(flags) + stated_length(len);
        let more = entry::flags::extended_to_storage(flags);
        let base = self.i * entry::RECORD_SIZE;
        let mut head = [0u8; format::FIXED_EXTENDED_SIZE];
        slices::copy_bytes(self.records, base, format::FLAGS_AT, &mut head, 0);
        wire::put16(&mut head, format::FLAGS_AT, word);
        wire::put16(&mut head, format::FIXED_SIZE, more);
        head
    }

    // Writes its entry at `at`, and answers where it ends: what stands before the path, the path, and 1 to 8 NULs.
    fn put_entry(self, flags: u32, path: &[u8], out: &mut [u8], at: usize) -> usize
        requires flags_value { flags ≡ flags_at self.records.now self.i }
        requires path_in_bounds { at + whole_of (fixed_of id_size flags) (length path.now) ≤ length out.old }
        ensures value { result ≡ at + whole_of (fixed_of id_size flags) (length path.now) }
        ensures out_after { out.new ≡ put out.old at (entry_of id_size self.entry.records.now self.entry.i path.now) }
    {
        let len = path.len();
        let fixed = fixed_size(flags);
        let head = self.head(flags, len);
        let body = at + fixed;
        let past = body + len;
        let pad = ENTRY_ALIGN - (fixed + len) % ENTRY_ALIGN;
        slices::copy_bytes(&head, 0, fixed, out, at);
        slices::copy_bytes(path, 0, len, out, body);
        slices::clear(out, past, pad);
        past + pad
    }

    // Writes what is written of it at `at` if that fits, and answers where it ends; else nothing, and answers `at`.
    fn put(self, out: &mut [u8], at: usize) -> usize
        ensures { (result, out.new) ≡ put_one at out.old (bytes_at id_size self.entry.records.now (lying_in self.entry.paths.now) self.entry.i) }
    {
        let flags = self.flags();
        if entry::flags::is_removed(flags) {
            return at;
        }
        let path = self.path();
        let size = entry_size(flags, path);
        if out.len() < at || out.len() - at < size {
            return at;
        }
        self.put_entry(flags, path, out, at)
    }
}

// Version 3 if a record has EXTENDED, even one that is not written.
fn version_with(flags: u32, version: u32) -> u32
    ensures { result ≡ version_with flags version }
{
    if entry::flags::is_extended(flags) {
        3
    } else {
        version
    }
}

// Sizes the whole table, or finds the first record with a fault.
pub fn size_entries(records: &[u8], paths: &[u8]) -> Result<Sized, Outside>
    ensures { result ≡ size_table id_size records.now (lying_in paths.now) }
{
    let mut version: u32 = 2;
    let mut count: usize = 0;
    let mut size = format::HEADER_SIZE;
    for i in 0..entry::records_in(records) {
        let record = Record { records, paths, i };
        if record.has_fault() {
            return Err(Outside { index: i });
        }
        version = version_with(record.flags(), version);
        count += record.count();
        size = sums::saturating_add(size, record.size());
    }
    Ok(Sized {
        version,
        count,
        size,
    })
}

// Writes every entry from `from` on, each if it fits, and answers where the last ends.
pub fn put_entries(records: &[u8], paths: &[u8], out: &mut [u8], from: usize) -> usize
    ensures { (result, out.new) ≡ put_table id_size records.now (lying_in paths.now) from out.old }
{
    let mut at = from;
    for i in 0..entry::records_in(records) {
        at = Record { records, paths, i }.put(out, at);
    }
    at
}
