// What the file system said of an entry's file when it was added.
ghost use Rattle.std.specs.Prelude.{◌≡◌, ◌+◌, ◌≤◌};
ghost use Rattle.entry.specs.Layout.{record_size};
ghost use Rattle.entry.specs.Record.{field_at};
ghost use Rattle.entry.specs.Stat.{time_of, stat_at};

// Where the fields start, in an entry and in a record.
const CTIME_AT: usize = 0;

const MTIME_AT: usize = 8;

const DEV_AT: usize = 16;

const INO_AT: usize = 20;

const UID_AT: usize = 28;

const GID_AT: usize = 32;

const SIZE_AT: usize = 36;

#[derive(Clone, Copy)]
pub struct Time {
    pub secs: u32,
    pub nsecs: u32,
}

#[derive(Clone, Copy)]
pub struct Stat {
    pub mtime: Time,
    pub ctime: Time,
    pub dev: u32,
    pub ino: u32,
    pub uid: u32,
    pub gid: u32,
    pub size: u32,
}

// The time whose seconds stand at k of record i.
#[tactic(auto, unfolding(crate::specs::Stat::time_of))]
fn time_at(records: &[u8], i: usize, k: usize) -> Time
    requires { k + 8 ≤ record_size }
    ensures { result ≡ time_of (λ p. field_at 4 p records.now i) k }
{
    let secs = super::field32(records, i, k);
    let nsecs = super::field32(records, i, k + 4);
    Time { secs, nsecs }
}

// What record i holds; zeros where there is no such record.
#[tactic(auto, unfolding(crate::specs::Stat::stat_at))]
pub fn stat_at(records: &[u8], i: usize) -> Stat
    ensures { result ≡ stat_at records.now i }
{
    let ctime = time_at(records, i, CTIME_AT);
    let mtime = time_at(records, i, MTIME_AT);
    let dev = super::field32(records, i, DEV_AT);
    let ino = super::field32(records, i, INO_AT);
    let uid = super::field32(records, i, UID_AT);
    let gid = super::field32(records, i, GID_AT);
    let size = super::field32(records, i, SIZE_AT);
    Stat {
        mtime,
        ctime,
        dev,
        ino,
        uid,
        gid,
        size,
    }
}
