// A record looked up by its path and stage, and whether a table is in order.
ghost use Rattle.std.specs.Prelude.{◌≡◌, []};
ghost use Rattle.entry.specs.Paths.{lying_in};
ghost use Rattle.access.specs.Lookup.{lookup_at};
ghost use Rattle.access.specs.Verify.{verify_at};
ghost use Rattle.sparrowpivot.specs.Told.{told};
ghost use Rattle.sparrowpivot.specs.Searching.{tell_found, tell_verified};

use access::verify::Error as Disorder;
use access::{Error, Found};

// The record that has this path and stage. 0: 1 if there is one, its index, and how many records were compared; 11: nothing; 12: the index of the record.
pub fn sparrowpivot_lookup(
    records: &[u8],
    paths: &[u8],
    key: &[u8],
    stage: u32,
    values: &mut [u64; 8],
) -> u32
    ensures { told result values.new [] ≡ tell_found (lookup_at records.now (lying_in paths.now) key.now stage) }
{
    let a = access::lookup(records, paths, key, stage);
    match a {
        Ok(Found::At { index, compared }) => {
            *values = [1, index as u64, compared as u64, 0, 0, 0, 0, 0];
            0
        }
        Ok(Found::Absent { compared }) => {
            *values = [0, 0, compared as u64, 0, 0, 0, 0, 0];
            0
        }
        Err(Error::NoStage) => {
            *values = [0; 8];
            refusal::NO_STAGE
        }
        Err(Error::PathOutside(i)) => {
            *values = [i as u64, 0, 0, 0, 0, 0, 0, 0];
            refusal::PATH_OUTSIDE
        }
    }
}

// Whether every path lies in the path store and each record is strictly after the one before. 0: so it is; 12 and 13: the index of the record.
pub fn sparrowpivot_check_order(records: &[u8], paths: &[u8], values: &mut [u64; 8]) -> u32
    ensures { told result values.new [] ≡ tell_verified (verify_at records.now (lying_in paths.now)) }
{
    let a = access::verify::verify_entries(records, paths);
    match a {
        Ok(()) => {
            *values = [0; 8];
            0
        }
        Err(Disorder::PathOutside(i)) => {
            *values = [i as u64, 0, 0, 0, 0, 0, 0, 0];
            refusal::PATH_OUTSIDE
        }
        Err(Disorder::NotAfter(i)) => {
            *values = [i as u64, 0, 0, 0, 0, 0, 0, 0];
            refusal::NOT_AFTER
        }
    }
}
