// The record store: 96 bytes a record. The ten fields stand as in the file (0 to 39, the mode masked), the id in 32 bytes (40), the flags (72), and where the path
// starts (76) and ends (84) in the path store; four bytes are zero. All that is known of this layout is known here.

#![tactic(auto)]

ghost use Rattle.std.specs.Prelude.{◌≡◌, ◌+◌, ◌-◌, ◌≤◌, length};
ghost use Rattle.std.proofs.Math.Seq.{paste};
ghost use Rattle.format.specs.Format.{id_size};
ghost use Rattle.entry.specs.Layout.{record_size, id_place};
ghost use Rattle.entry.specs.Paths.{lying_in};
ghost use Rattle.entry.specs.Record.{records_in, front_of, rest_of, put_record, field_at, flags_at, mode_at, stage_at, start_at, end_at, id_at, lies_inside, path_at};

use mode::{MODE_AT, MODE_END};

pub mod flags;
pub mod mode;
pub mod stat;

pub const RECORD_SIZE: usize = 96;

// Where the parts of a record start. As far as the id they stand as in the entry; zeros fill the room of an id.
const ID_AT: usize = 40;

const ZEROS_AT: usize = ID_AT + format::ID_SIZE;

const FLAGS_AT: usize = 72;

const START_AT: usize = 76;

const END_AT: usize = 84;

const REST_AT: usize = 92;

// The fields and the id.
fn put_front(file: &[u8], at: usize, slot: &mut [u8])
    requires id_size_in_bounds { at + (id_place + id_size) ≤ length file.now }
    requires id_size_in_bounds_2 { id_place + id_size ≤ length slot.old }
    ensures { slot.new ≡ paste slot.old 0 (front_of id_size file.now at) (id_place + id_size) }
{
    let k = mode::keep_mode(wire::be32(file, at + MODE_AT));
    slices::copy_bytes(file, at, MODE_AT, slot, 0);
    wire::put32(slot, MODE_AT, k);
    slices::copy_bytes(file, at + MODE_END, ZEROS_AT - MODE_END, slot, MODE_END);
}

// What follows the id.
fn put_rest(slot: &mut [u8], flags: u32, start: usize, end: usize)
    requires { record_size ≤ length slot.old }
    ensures { slot.new ≡ paste slot.old (id_place + id_size) (rest_of id_size flags start end) (record_size - (id_place + id_size)) }
{
    slices::clear(slot, ZEROS_AT, FLAGS_AT - ZEROS_AT);
    wire::put32(slot, FLAGS_AT, flags);
    wire::put64(slot, START_AT, start as u64);
    wire::put64(slot, END_AT, end as u64);
    slices::clear(slot, REST_AT, RECORD_SIZE - REST_AT);
}

// Writes record i, of the entry at `at`; nothing where the entry's bytes or the record are not there. The record is made in an array first: the compiler knows
// that this overlaps neither slice, and copies 16 bytes at a time.
#[tactic(auto, unfolding(crate::specs::Record::put_record))]
pub fn put_record(
    file: &[u8],
    at: usize,
    flags: u32,
    start: usize,
    end: usize,
    records: &mut [u8],
    i: usize,
)
    ensures { records.new ≡ put_record id_size file.now at flags start end records.old i }
{
    if file.len() < ZEROS_AT || file.len() - ZEROS_AT < at || records_in(records) <= i {
        return;
    }
    let base = i * RECORD_SIZE;
    let mut slot = [0u8; RECORD_SIZE];
    put_front(file, at, &mut slot);
    put_rest(&mut slot, flags, start, end);
    slices::copy_bytes(&slot, 0, RECORD_SIZE, records, base);
}

// How many records a table has.
pub fn records_in(records: &[u8]) -> usize
    ensures { result ≡ records_in records.now }
{
    records.len() / RECORD_SIZE
}

// The four bytes at k of record i; 0 where there is no such record.
#[tactic(auto, unfolding(crate::specs::Record::field_at))]
fn field32(records: &[u8], i: usize, k: usize) -> u32
    requires { k + 4 ≤ record_size }
    ensures { result ≡ field_at 4 k records.now i }
{
    if i < records_in(records) {
        wire::be32(records, i * RECORD_SIZE + k)
    } else {
        0
    }
}

// The eight bytes at k of record i; 0 where there is no such record. It stays a function of its own: one for both would take the reader as a closure and say more in its
// contract than the two do.
#[tactic(auto, unfolding(crate::specs::Record::field_at))]
fn field64(records: &[u8], i: usize, k: usize) -> u64
    requires { k + 8 ≤ record_size }
    ensures { result ≡ field_at 8 k records.now i }
{
    if i < records_in(records) {
        wire::be64(records, i * RECORD_SIZE + k)
    } else {
        0
    }
}

pub fn flags_at(records: &[u8], i: usize) -> u32
    ensures { result ≡ flags_at records.now i }
{
    field32(records, i, FLAGS_AT)
}

pub fn mode_at(records: &[u8], i: usize) -> u32
    ensures { result ≡ mode_at records.now i }
{
    field32(records, i, MODE_AT)
}

pub fn stage_at(records: &[u8], i: usize) -> u32
    ensures { result ≡ stage_at records.now i }
{
    let flags = flags_at(records, i);
    flags::stage_raw(flags)
}

pub fn path_start_at(records: &[u8], i: usize) -> u64
    ensures { result ≡ start_at records.now i }
{
    field64(records, i, START_AT)
}

pub fn path_end_at(records: &[u8], i: usize) -> u64
    ensures { result ≡ end_at records.now i }
{
    field64(records, i, END_AT)
}

// The id of record i; zeros where there is no such record.
#[tactic(auto, unfolding(crate::specs::Record::id_at))]
pub fn id_at(records: &[u8], i: usize) -> [u8; format::ID_SIZE]
    ensures { result ≡ id_at id_size records.now i }
{
    let mut id = [0u8; format::ID_SIZE];
    if records_in(records) <= i {
        return id;
    }
    slices::copy_bytes(
        records,
        i * RECORD_SIZE + ID_AT,
        format::ID_SIZE,
        &mut id,
        0,
    );
    id
}

// Whether record i is there and its path lies in the path store.
#[tactic(auto, unfolding(crate::specs::Record::lies_inside))]
pub fn lies_inside(records: &[u8], paths: &[u8], i: usize) -> bool
    ensures { result ≡ lies_inside records.now (lying_in paths.now) i }
{
    if records_in(records) <= i {
        return false;
    }
    let start = path_start_at(records, i) as usize;
    let end = path_end_at(records, i) as usize;
    if end < start {
        return false;
    }
    end <= paths.len()
}

// The path of record i, a part of the path store; the empty part where it lies outside. Nobody asks for a path in another way.
#[tactic(auto, unfolding(crate::specs::Record::path_at, crate::specs::Record::lies_inside))]
pub fn path_of<'a>(records: &[u8], paths: &'a [u8], i: usize) -> &'a [u8]
    ensures { result.now ≡ path_at records.now (lying_in paths.now) i }
{
    if records_in(records) <= i {
        return &paths[0..0];
    }
    let start = path_start_at(records, i) as usize;
    let end = path_end_at(records, i) as usize;
    // two tests, as `lies_inside` makes them: the compiler then leaves them out where that was asked first
    if end < start || paths.len() < end {
        return &paths[0..0];
    }
    &paths[start..end]
}
