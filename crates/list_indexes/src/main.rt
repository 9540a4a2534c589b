// Lists each of its files, which git made; its stdout is what git printed of them (tests/make/list_indexes made both).

#![tactic(auto)]

use std::env;
use std::io::Result;

// One byte more than the largest file that is read, so that a longer one is seen.
const MOST_BYTES: usize = 65537;

// Prints the listing of a file, as crate `list` does of its input.
fn print(rt: &impl Print, file: &[u8]) -> Result<()> {
    // what is lent is a store of a fixed size
    let mut out = [0u8; list_text::LISTING_ROOM];
    let size = list_text::list_file(file, &mut out);
    rt.write_all(out.get(..size).unwrap_or(&[]))
}

fn main(rt: HostRuntime) -> Result<()> {
    for name in env::args(&rt)?.skip(1) {
        // what cannot be printed is left out
        let _ = println!(rt; "== {name}");
        if let Some(file) = replay::load(&rt, name.as_str(), MOST_BYTES)? {
            let _ = print(&rt, &file);
        }
    }
    Ok(())
}
