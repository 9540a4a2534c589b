// An answer of the reader and its stores as text, and all that the listing program prints of a file.

#![tactic(auto)]

ghost use Rattle.std.specs.Prelude.{◌≡◌};
ghost use Rattle.lines.specs.Written.{outcome, written};
ghost use Rattle.list_text.specs.Listed.{text_of, too_big, listed};
ghost use Rattle.format.specs.Format.{depth_limit, id_size};
ghost use Rattle.kind.specs.Sha1.{sha1_kind};
ghost use Rattle.entry.specs.Paths.{lying_in};

use file::{Error, Reading};

// The largest file that the listing program reads, and the room that it lends: 512 records, 65,536 path bytes and 256 nodes.
const MOST_BYTES: usize = 65536;

const RECORD_ROOM: usize = 49152;

const PATH_ROOM: usize = 65536;

const NODE_ROOM: usize = 18432;

// The room in which the text of every file fits: 512 lines of 51 bytes and their paths, which have a byte of the path store each (`every_listing_fits`).
pub const LISTING_ROOM: usize = 91648;

// Writes an answer as text at the start of out: the lines of its records, or one line that names the refusal. Answers how long the text is; where it does not fit, out
// stays as it was.
pub fn write_lines(
    answer: Result<Reading, Error>,
    records: &[u8],
    paths: &[u8],
    out: &mut [u8],
) -> usize
    ensures { outcome result out.new ≡ written (text_of id_size answer records.now (lying_in paths.now)) out.old }
{
    match answer {
        Ok(read) => lines::write_records(records, paths, read.records, out),
        Err(_) => lines::write_refused(file::number(answer), file::carried(answer), out),
    }
}

// Writes what is said of a file that is too long, if it fits.
fn write_too_big(out: &mut [u8]) -> usize
    ensures { outcome result out.new ≡ written too_big out.old }
{
    if out.len() < 8 {
        return 8;
    }
    slices::copy_bytes(b"too big\n", 0, 8, out, 0);
    8
}

// Writes what the listing program prints of a file, and answers how long that is; where it does not fit, out stays as it was.
pub fn list_file(file: &[u8], out: &mut [u8]) -> usize
    ensures { outcome result out.new ≡ written (listed sha1_kind depth_limit file.now) out.old }
{
    if MOST_BYTES < file.len() {
        return write_too_big(out);
    }
    let mut records = [0u8; RECORD_ROOM];
    let mut paths = [0u8; PATH_ROOM];
    let mut nodes = [0u8; NODE_ROOM];
    let answer = file::read(file, &mut records, &mut paths, &mut nodes);
    write_lines(answer, &records, &paths, out)
}
