// Whether a table is in order: every path lies in the path store, and each record is strictly after the one before.
ghost use Rattle.std.specs.Prelude.{◌≡◌};
ghost use Rattle.entry.specs.Paths.{lying_in};
ghost use Rattle.access.specs.Verify.{follows_at, verify_at};

use super::Table;

// Why a table is not in order. PathOutside is refusal 12, NotAfter 13, each with the record's index.
#[derive(Clone, Copy)]
pub enum Error {
    PathOutside(usize),
    NotAfter(usize),
}

impl Table<'_> {
    // Whether record i is strictly after the one before; the first one is.
    #[tactic(auto, using(crate::proofs::Laws::orderings), unfolding(crate::specs::Verify::follows_at))]
    fn follows(self, i: usize) -> bool
        ensures { result ≡ follows_at self.entry.records.now (lying_in self.entry.paths.now) i }
    {
        i == 0 || self.key_at(i - 1).compare(self.key_at(i)).is_lt()
    }
}

#[tactic(auto, unfolding(crate::specs::Verify::verify_at, crate::specs::Verify::verify_from))]
pub fn verify_entries(records: &[u8], paths: &[u8]) -> Result<(), Error>
    ensures { result ≡ verify_at records.now (lying_in paths.now) }
{
    let table = Table { records, paths };
    let n = entry::records_in(records);
    for i in 0..n {
        if !table.lies_inside(i) {
            return Err(Error::PathOutside(i));
        }
        if !table.follows(i) {
            return Err(Error::NotAfter(i));
        }
    }
    Ok(())
}
