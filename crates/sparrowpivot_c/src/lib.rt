// The static library: what programs in other languages call; include/sparrowpivot.h declares it. Each function only calls the one of its name in `sparrowpivot`, with the same
// clauses (tests/exports), and is exported.

#![tactic(auto)]

ghost use Rattle.std.specs.Prelude.{◌≡◌};
ghost use Rattle.sha1_hash.specs.Sha1.{sha1};

pub mod extensions;
pub mod reading;
pub mod searching;
pub mod tables;
pub mod writing;

// The SHA-1 of the bytes, put into the twenty bytes lent.
#[unsafe(no_mangle)]
pub extern "C" fn sparrowpivot_sha1(bytes: &[u8], out: &mut [u8; 20])
    ensures { out.new ≡ sha1 bytes.now }
{
    sparrowpivot::sparrowpivot_sha1(bytes, out);
}
