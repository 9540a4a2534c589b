// The listing program: reads an index on standard input and prints a line for each entry, or one line that names the refusal.

#![tactic(auto)]

use std::io::Result;

// One byte more than the largest file that is read, so that longer input is seen.
const MOST_BYTES: usize = 65537;

// The listing of a file, put into out. Every listing fits, so that no part of one is ever held back.
fn listing<'a>(file: &[u8], out: &'a mut [u8; list_text::LISTING_ROOM]) -> &'a [u8] {
    let size = list_text::list_file(file, out);
    &out[..size]
}

fn main(rt: HostRuntime) -> Result<()> {
    // arrays, since a vector could lack memory, and a listing never does
    let mut room = [0u8; MOST_BYTES];
    let mut out = [0u8; list_text::LISTING_ROOM];
    let n = replay::fill(rt.stdin(), &mut room);
    // what cannot be printed is left out
    let _ = rt.write_all(listing(&room[..n], &mut out));
    Ok(())
}
