// The messages of FIPS 180-4's examples: nothing, one block, the message of 448 bits, whose padding takes a block of its own, the message of 896 bits, and a
// million times "a", fed in pieces of 1 to 130 bytes.

#![tactic(auto)]

ghost use Rattle.std.specs.Prelude.{◌≡◌, replicate};
ghost use Rattle.sha1_hash.specs.Sha1.{sha1};

use sha1_hash::{Digest, sha1_of};
use std::io::{self, Write};

// The digest of n bytes 'a', in pieces of 1 to 130 bytes.
fn uneven(n: usize) -> [u8; 20]
    ensures { result ≡ sha1 (replicate n 97) }
{
    let a = [b'a'; 130];
    let mut d = Digest::new();
    let mut left = n;
    let mut size: usize = 1;
    // the pieces change their size by turns: no range has such steps
    while 0 < left {
        let part = left.min(size);
        let next = d.feed(&a[..part]);
        d = next;
        left -= part;
        size = size % 130 + 1;
    }
    d.finish()
}

fn main(rt: HostRuntime) -> io::Result<()> {
    let digests = [
        sha1_of(b""),
        sha1_of(b"abc"),
        sha1_of(b"abcdbcdecdefdefgefghfghighijhijkijkljklmklmnlmnomnopnopq"),
        sha1_of(
            b"abcdefghbcdefghicdefghijdefghijkefghijklfghijklmghijklmnhijklmnoijklmnopjklmnopqklmnopqrlmnopqrsmnopqrstnopqrstu",
        ),
        uneven(1000000),
    ];
    let mut out = io::writer(&rt);
    for digest in digests {
        // what cannot be printed is left out
        let _ = out.write_all(&show::hex_line(digest));
    }
    Ok(())
}
