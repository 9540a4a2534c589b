// The digests of 201 messages, of 0 to 200 bytes: byte i of each is (7 i + 3) modulo 256. The digests of `stdout` were made with `sha1sum`, by
// tests/make/sha1_lengths.

#![tactic(auto)]

use std::io::{self, Write};

const LONGEST: usize = 200;

fn main(rt: HostRuntime) -> io::Result<()> {
    let message: [u8; LONGEST] = std::array::from_fn(|i| ((i * 7 + 3) % 256) as u8);
    let mut out = io::writer(&rt);
    for n in 0..=LONGEST {
        // what cannot be printed is left out
        let _ = out.write_all(&show::hex_line(sha1_hash::sha1_of(&message[..n])));
    }
    Ok(())
}
