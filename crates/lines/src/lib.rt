// Records as lines of text, as `git ls-files --stage` prints them, and a refusal as one line. A text is sized first, and written only if it fits.

#![tactic(auto)]

ghost use Rattle.std.specs.Prelude.{◌≡◌, [], ◌∷◌, ◌++◌, ◌+◌, ◌/◌, ◌%◌, ◌^◌, ◌≤◌, ◌<◌, length};
ghost use Rattle.format.specs.Format.{id_size};
ghost use Rattle.laws.specs.Put.{put};
ghost use Rattle.lines.specs.Lines.{octal, head_of, line_at, lines_from, tail_with, refused_with};
ghost use Rattle.sums.specs.Cap.{cap};
ghost use Rattle.entry.specs.Paths.{lying_in};
ghost use Rattle.lines.specs.Written.{outcome, written};

const NEWLINE: u8 = b'\n';

// Six octal digits of a mode and a space.
const MODE_SIZE: usize = 7;

// Two hexadecimal digits for each byte of an id.
const HEX_SIZE: usize = 2 * format::ID_SIZE;

// A space, the stage and a tab.
const MARK_SIZE: usize = 3;

const MARK_AT: usize = MODE_SIZE + HEX_SIZE;

// The bytes of a line before the path.
const HEAD_SIZE: usize = MARK_AT + MARK_SIZE;

// How long a line is without its path: the head and the newline.
const LINE_SIZE: usize = HEAD_SIZE + 1;

const REFUSED: [u8; 8] = *b"refused ";

// A text is written at a place of the output, and what writes it answers where it ends. Contracts speak of these two numbers (`put`), and a struct
// around output and place would hold no less.

// The octal digit of the three bits of a mode from `low` on.
fn octal_digit(mode: u32, low: u32) -> u8
    requires { low < 32 }
    ensures { result ≡ 48 + mode / 2 ^ low % 8 }
{
    b'0' + ((mode >> low) % 8) as u8
}

// The lowest six octal digits of a mode, and a space.
fn octal_mode(mode: u32) -> [u8; MODE_SIZE]
    ensures { result ≡ octal 6 mode ++ (32 ∷ []) }
{
    [
        octal_digit(mode, 15),
        octal_digit(mode, 12),
        octal_digit(mode, 9),
        octal_digit(mode, 6),
        octal_digit(mode, 3),
        octal_digit(mode, 0),
        b' ',
    ]
}

// A space, the stage and a tab.
fn stage_mark(stage: u32) -> [u8; MARK_SIZE]
    requires { stage < 4 }
    ensures { result ≡ 32 ∷ (48 + stage) ∷ 9 ∷ [] }
{
    [b' ', b'0' + stage as u8, b'\t']
}

// Writes what stands before the path: mode, id and stage.
fn put_head(mode: u32, id: [u8; format::ID_SIZE], stage: u32, out: &mut [u8], at: usize)
    requires stage_bound { stage < 4 }
    requires at_in_bounds { at + 50 ≤ length out.old }
    ensures { out.new ≡ put out.old at (head_of mode id stage) }
{
    let digits = octal_mode(mode);
    let hex = show::hex_line(id);
    let mark = stage_mark(stage);
    slices::copy_bytes(&digits, 0, MODE_SIZE, out, at);
    slices::copy_bytes(&hex, 0, HEX_SIZE, out, at + MODE_SIZE);
    slices::copy_bytes(&mark, 0, MARK_SIZE, out, at + MARK_AT);
}

// The lines of the first n records of a table, whose paths lie in a store.
#[derive(Clone, Copy)]
struct Listing<'a> {
    records: &'a [u8],
    paths: &'a [u8],
    n: usize,
}

impl Listing<'_> {
    // Writes the line of record i at `at`, and answers the place behind it.
    fn put_line(self, i: usize, out: &mut [u8], at: usize) -> usize
        requires { at + length (line_at id_size self.records.now (lying_in self.paths.now) i) ≤ length out.old }
        ensures { (result ≡ at + length (line_at id_size self.entry.records.now (lying_in self.entry.paths.now) i))
            × (out.new ≡ put out.old at (line_at id_size self.entry.records.now (lying_in self.entry.paths.now) i)) }
    {
        let mode = entry::mode_at(self.records, i);
        let id = entry::id_at(self.records, i);
        let stage = entry::stage_at(self.records, i);
        let path = entry::path_of(self.records, self.paths, i);
        let n = path.len();
        put_head(mode, id, stage, out, at);
        let body = at + HEAD_SIZE;
        slices::copy_bytes(path, 0, n, out, body);
        let last = body + n;
        out[last] = NEWLINE;
        last + 1
    }

    // How long they are.
    fn size(self) -> usize
        ensures { result ≡ cap (length (lines_from id_size self.entry.records.now (lying_in self.entry.paths.now) self.entry.n 0)) }
    {
        let mut size: usize = 0;
        for i in 0..self.n {
            let path = entry::path_of(self.records, self.paths, i);
            size = sums::saturating_add(size, LINE_SIZE + path.len());
        }
        size
    }

    // Writes them at the start of out.
    fn fill(self, out: &mut [u8])
        requires { length (lines_from id_size self.records.now (lying_in self.paths.now) self.n 0) ≤ length out.old }
        ensures { out.new ≡ put out.old 0 (lines_from id_size self.entry.records.now (lying_in self.entry.paths.now) self.entry.n 0) }
    {
        let mut at: usize = 0;
        for i in 0..self.n {
            at = self.put_line(i, out, at);
        }
    }
}

// Writes the lines of the first n records, if they fit, and answers how long they are.
pub fn write_records(records: &[u8], paths: &[u8], n: usize, out: &mut [u8]) -> usize
    ensures { outcome result out.new ≡ written (lines_from id_size records.now (lying_in paths.now) n 0) out.old }
{
    let listing = Listing { records, paths, n };
    let size = listing.size();
    if size <= out.len() {
        listing.fill(out);
    }
    size
}

// How long the line of a refusal is.
fn refused_size(number: u32, carried: Option<u64>) -> usize
    ensures { result ≡ length (refused_with number carried) }
{
    let alone = REFUSED.len() + wire::decimal_size(number as u64) + 1;
    match carried {
        Some(value) => alone + 1 + wire::decimal_size(value),
        None => alone,
    }
}

// Writes what follows a refusal's number.
fn put_tail(carried: Option<u64>, out: &mut [u8], at: usize)
    requires { at + length (tail_with carried) ≤ length out.old }
    ensures { out.new ≡ put out.old at (tail_with carried) }
{
    match carried {
        Some(value) => {
            out[at] = b' ';
            let end = wire::put_decimal(out, at + 1, value);
            out[end] = NEWLINE;
        }
        None => out[at] = NEWLINE,
    }
}

// Writes the line of a refusal at the start of out.
fn put_refused(number: u32, carried: Option<u64>, out: &mut [u8])
    requires { length (refused_with number carried) ≤ length out.old }
    ensures { out.new ≡ put out.old 0 (refused_with number carried) }
{
    slices::copy_bytes(&REFUSED, 0, REFUSED.len(), out, 0);
    let next = wire::put_decimal(out, REFUSED.len(), number as u64);
    put_tail(carried, out, next);
}

// Writes the line of a refusal, if it fits, and answers how long it is.
pub fn write_refused(number: u32, carried: Option<u64>, out: &mut [u8]) -> usize
    ensures { outcome result out.new ≡ written (refused_with number carried) out.old }
{
    let size = refused_size(number, carried);
    if size <= out.len() {
        put_refused(number, carried, out);
    }
    size
}
