// An index file written from lent tables into a lent output.
ghost use Rattle.std.specs.Prelude.{◌≡◌, [], ◌∷◌};
ghost use Rattle.format.specs.Format.{depth_limit};
ghost use Rattle.kind.specs.Sha1.{sha1_kind};
ghost use Rattle.entry.specs.Paths.{lying_in};
ghost use Rattle.write.specs.File.{write_all};
ghost use Rattle.sparrowpivot.specs.Told.{told};
ghost use Rattle.sparrowpivot.specs.Writing.{options_from, tell_write};

use write::{Error, Options, Written};

// What the five low bits of a number ask for, in the order of the fields.
fn options_from(options: u32) -> Options
    ensures { result ≡ options_from options }
{
    Options {
        tree: options % 2 == 1,
        cache: options / 2 % 2 == 1,
        eoie: options / 4 % 2 == 1,
        sparse: options / 8 % 2 == 1,
        unhashed: options / 16 % 2 == 1,
    }
}

// Writes the index file of a table and its tree into out. 0: written, with the version and the size as the first two values; 12: the index of the record; 14: the
// size needed; 15 and 16: nothing. A refusal leaves out as it was, so an empty out asks for the size.
pub fn sparrowpivot_write(
    records: &[u8],
    paths: &[u8],
    nodes: &[u8],
    names: &[u8],
    options: u32,
    out: &mut [u8],
    values: &mut [u64; 8],
) -> u32
    ensures { told result values.new (out.new ∷ [])
        ≡ tell_write
        (write_all sha1_kind depth_limit records.now (lying_in paths.now) nodes.now names.now (options_from options) out.old) }
{
    let o = options_from(options);
    let a = write::write_to(records, paths, nodes, names, o, out);
    match a {
        Ok(Written { version, size }) => {
            *values = [version as u64, size as u64, 0, 0, 0, 0, 0, 0];
            0
        }
        Err(Error::PathOutside { index }) => {
            *values = [index as u64, 0, 0, 0, 0, 0, 0, 0];
            refusal::PATH_OUTSIDE
        }
        Err(Error::NotProper) => {
            *values = [0; 8];
            refusal::NOT_PROPER
        }
        Err(Error::TooLarge) => {
            *values = [0; 8];
            refusal::TOO_LARGE
        }
        Err(Error::ShortOutput { size }) => {
            *values = [size as u64, 0, 0, 0, 0, 0, 0, 0];
            refusal::SHORT_OUTPUT
        }
    }
}
