// Looking a record up by its path and its stage.

#![tactic(auto)]

ghost use Rattle.std.specs.Prelude.{◌≡◌};
ghost use Rattle.entry.specs.Paths.{lying_in};
ghost use Rattle.entry.specs.Record.{stage_at, lies_inside, path_at};
ghost use Rattle.access.specs.Order.{placed};
ghost use Rattle.access.specs.Lookup.{probe_at, search_at, lookup_at};

use std::cmp::Ordering;

pub mod order;
pub mod verify;

// What a lookup comes to: the record's index if it is there, and how many records were compared. `found_then_has` and `absent_then_none` name the two.
#[derive(Clone, Copy)]
pub enum Found {
    At { index: usize, compared: usize },
    Absent { compared: usize },
}

// Why nothing is looked up. NoStage is refusal 11; PathOutside is 12, with the record's index.
#[derive(Clone, Copy)]
pub enum Error {
    NoStage,
    PathOutside(usize),
}

// What records are ordered by: the path, then the stage.
#[derive(Clone, Copy)]
struct Key<'a> {
    path: &'a [u8],
    stage: u32,
}

impl Key<'_> {
    // How it stands to another: by path, then by stage.
    fn compare(self, other: Key) -> Ordering
        ensures { result ≡ placed self.entry.path.now self.entry.stage other.entry.path.now other.entry.stage }
    {
        let by_path = order::compare(self.path, other.path);
        let by_stage = order::compare_stages(self.stage, other.stage);
        order::then(by_path, by_stage)
    }
}

// The records of a table, and the store in which their paths lie. Other crates have such a struct too: each holds what its crate needs,
// and one struct of `entry` for all could not have their methods.
#[derive(Clone, Copy)]
struct Table<'a> {
    records: &'a [u8],
    paths: &'a [u8],
}

impl<'a> Table<'a> {
    // Whether record i is there and its path lies in the path store.
    fn lies_inside(self, i: usize) -> bool
        ensures { result ≡ lies_inside self.entry.records.now (lying_in self.entry.paths.now) i }
    {
        entry::lies_inside(self.records, self.paths, i)
    }

    // The path and the stage of record i.
    fn key_at(self, i: usize) -> Key<'a>
        ensures path { result.path.now ≡ path_at self.entry.records.now (lying_in self.entry.paths.now) i }
        ensures stage { result.stage ≡ stage_at self.entry.records.now i }
    {
        Key {
            path: entry::path_of(self.records, self.paths, i),
            stage: entry::stage_at(self.records, i),
        }
    }

    // How record i stands to what is looked for; none where its path does not lie in the path store.
    #[tactic(auto, unfolding(crate::specs::Lookup::probe_at))]
    fn probe_at(self, key: Key, i: usize) -> Option<Ordering>
        ensures { result ≡ probe_at self.entry.records.now (lying_in self.entry.paths.now) key.entry.path.now key.entry.stage i }
    {
        if self.lies_inside(i) {
            Some(self.key_at(i).compare(key))
        } else {
            None
        }
    }

    // Halves what is left of the table until the record is found or nothing is left: two ends move, and the library's search does not say how many were compared.
    #[tactic(auto, using(crate::proofs::Laws::halves))]
    fn search(self, key: Key) -> Result<Found, Error>
        ensures { result ≡ search_at self.entry.records.now (lying_in self.entry.paths.now) key.entry.path.now key.entry.stage }
    {
        let n = entry::records_in(self.records);
        let mut low: usize = 0;
        let mut high = n;
        let mut compared: usize = 0;
        while low < high {
            let middle = (low + high) / 2;
            let order = self
                .probe_at(key, middle)
                .ok_or(Error::PathOutside(middle))?;
            compared += 1;
            match order {
                Ordering::Equal => {
                    return Ok(Found::At {
                        index: middle,
                        compared,
                    });
                }
                Ordering::Less => low = middle + 1,
                Ordering::Greater => high = middle,
            }
        }
        Ok(Found::Absent { compared })
    }
}

// The record that has this path and this stage. Any number may be asked for as a stage, as C asks; from 4 on it is none.
#[tactic(auto, unfolding(crate::specs::Lookup::lookup_at))]
pub fn lookup(records: &[u8], paths: &[u8], key: &[u8], stage: u32) -> Result<Found, Error>
    ensures { result ≡ lookup_at records.now (lying_in paths.now) key.now stage }
{
    match stage {
        0..=3 => Table { records, paths }.search(Key { path: key, stage }),
        _ => Err(Error::NoStage),
    }
}
