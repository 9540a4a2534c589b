// EOIE, the last extension: where the extensions begin, and SHA-1 of the signatures and sizes of those in front of it.
ghost use Rattle.std.specs.Prelude.{◌≡◌, ◌+◌, ◌≤◌, length};
ghost use Rattle.format.specs.Format.{id_size, eoie_whole_size};
ghost use Rattle.kind.specs.Sha1.{sha1_kind};
ghost use Rattle.extension.specs.EndOfIndexEntry.{prior_at, verified_at, offset_in};

use crate::EOIE;
use crate::iter::{Body, Cursor};
use sha1_hash::Digest;
use wire::FileAt;

// How long the body is, as its header says it.
const MIN_SIZE: u32 = format::EOIE_SIZE as u32;

// What stands before the body's hash: header and offset.
const BEFORE_HASH: usize = format::EXTENSION_HEADER_SIZE + format::OFFSET_SIZE;

// The extensions in front of EOIE: SHA-1 of their headers, and the body of the last.
#[derive(Drop)]
struct Prior {
    sum: [u8; format::ID_SIZE],
    last: Option<Body>,
}

// What the extensions from a place on come to, as far as they are found.
#[tactic(auto, using(crate::proofs::Laws::priors))]
fn summed(file: &[u8], from: FileAt, end: FileAt) -> Prior
    ensures { result ≡ prior_at sha1_kind file.now from.0 end.0 }
{
    let mut here = Cursor { at: from, end };
    let mut digest = Digest::new();
    let mut last = None;
    // steps of a cursor: how many there are is not known
    while let Ok(Some(found)) = here.step(file) {
        digest = digest.feed(&file[here.at.0..found.body.start.0]);
        last = Some(found.body);
        here = found.next;
    }
    let sum = digest.finish();
    Prior { sum, last }
}

// The offset, if its extensions have the hash that EOIE, which begins at `start`, has of them, and the last of them ends where EOIE begins.
#[tactic(auto, using(crate::proofs::Laws::sums), unfolding(crate::specs::EndOfIndexEntry::verified_at))]
fn verified(file: &[u8], offset: usize, start: usize) -> Option<FileAt>
    requires { start + eoie_whole_size id_size ≤ length file.now }
    ensures { result ≡ verified_at sha1_kind file.now start offset }
{
    let Prior { sum, last } = summed(file, FileAt(offset), FileAt(start));
    let hash = start + BEFORE_HASH;
    if !slices::same(&sum, 0, file, hash, format::ID_SIZE) {
        return None;
    }
    if last?.stop.0 != start {
        return None;
    }
    Some(FileAt(offset))
}

// The offset at which extensions begin, which the EOIE in front of a file's trailer tells; none where there is no such EOIE.
#[tactic(auto, unfolding(crate::specs::EndOfIndexEntry::offset_in, crate::specs::EndOfIndexEntry::offset_at))]
pub fn decode(file: &[u8]) -> Option<FileAt>
    ensures { result ≡ offset_in sha1_kind file.now }
{
    if file.len() < format::EOIE_WHOLE_SIZE + format::ID_SIZE {
        return None;
    }
    let start = file.len() - (format::EOIE_WHOLE_SIZE + format::ID_SIZE);
    if wire::be32(file, start) != EOIE || wire::be32(file, start + 4) != MIN_SIZE {
        return None;
    }
    let offset = wire::be32(file, start + format::EXTENSION_HEADER_SIZE) as usize;
    if offset < format::HEADER_SIZE || start < offset {
        return None;
    }
    verified(file, offset, start)
}
