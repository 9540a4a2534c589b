// What programs in other languages call, exported by crate sparrowpivot_c; include/sparrowpivot.h declares it. A slice is passed as a pointer and a count. A function that answers
// more than one number puts them into eight lent numbers, all of which it writes, 0 where unused, and returns 01's refusal number, 0 where nothing is refused.

#![tactic(auto)]

ghost use Rattle.std.specs.Prelude.{◌≡◌};
ghost use Rattle.sha1_hash.specs.Sha1.{sha1};

pub mod extensions;
pub mod reading;
pub mod searching;
pub mod tables;
pub mod writing;

// The SHA-1 of the bytes, put into the twenty bytes lent.
pub fn sparrowpivot_sha1(bytes: &[u8], out: &mut [u8; 20])
    ensures { out.new ≡ sha1 bytes.now }
{
    *out = sha1_hash::sha1_of(bytes);
}
