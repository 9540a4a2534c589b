// Numbers as the index spells them: big-endian, read and written at a place; in groups of seven bits; and in digits.

#![tactic(auto)]

ghost use Rattle.std.specs.Prelude.{◌≡◌, ◌+◌, ◌-◌, ◌*◌, ◌/◌, ◌%◌, ◌≤◌, ◌<◌, Bool, true, false, length, drop, MatchOption};
ghost use Rattle.std.proofs.Math.Seq.{paste};
ghost use Rattle.laws.specs.Put.{put};
ghost use Rattle.slices.specs.Bytes.{nul_at};
ghost use Rattle.wire.specs.BigEndian.{be_at, bytes_of};
ghost use Rattle.wire.specs.Groups.{number_at};
ghost use Rattle.wire.specs.Written.{digits_of};
ghost use Rattle.wire.specs.Digits.{is_digit, grown, digits_in, unsigned_at, plain, negated, signed_at};

// A place in the file, and a place in the path store: neither is ever taken for the other.
#[derive(Clone, Copy)]
pub struct FileAt(pub usize);

#[derive(Clone, Copy)]
pub struct PathAt(pub usize);

// Callers name the width that the format has, and the library has no trait for a number's bytes: three readers and three writers of one line each.

// The two bytes at `at` as a number, the upper first.
pub fn be16(s: &[u8], at: usize) -> u16
    requires { at + 2 ≤ length s.now }
    ensures { result ≡ be_at 2 s.now at }
{
    u16::from_be_bytes([s[at], s[at + 1]])
}

// The four bytes at `at` as a number, the upper first.
pub fn be32(s: &[u8], at: usize) -> u32
    requires { at + 4 ≤ length s.now }
    ensures { result ≡ be_at 4 s.now at }
{
    u32::from_be_bytes([s[at], s[at + 1], s[at + 2], s[at + 3]])
}

// The eight bytes at `at` as a number, the upper first.
pub fn be64(s: &[u8], at: usize) -> u64
    requires { at + 8 ≤ length s.now }
    ensures { result ≡ be_at 8 s.now at }
{
    u64::from_be_bytes([
        s[at],
        s[at + 1],
        s[at + 2],
        s[at + 3],
        s[at + 4],
        s[at + 5],
        s[at + 6],
        s[at + 7],
    ])
}

// Writes x as two bytes at `at`, the upper first.
pub fn put16(d: &mut [u8], at: usize, x: u16)
    requires { at + 2 ≤ length d.old }
    ensures { d.new ≡ paste d.old at (bytes_of 2 x) 2 }
{
    d[at..at + 2].copy_from_slice(&x.to_be_bytes());
}

// Writes x as four bytes at `at`, the upper first.
pub fn put32(d: &mut [u8], at: usize, x: u32)
    requires { at + 4 ≤ length d.old }
    ensures { d.new ≡ paste d.old at (bytes_of 4 x) 4 }
{
    d[at..at + 4].copy_from_slice(&x.to_be_bytes());
}

// Writes x as eight bytes at `at`, the upper first.
pub fn put64(d: &mut [u8], at: usize, x: u64)
    requires { at + 8 ≤ length d.old }
    ensures { d.new ≡ paste d.old at (bytes_of 8 x) 8 }
{
    d[at..at + 8].copy_from_slice(&x.to_be_bytes());
}

// Why no number stands in groups of seven bits. Where the bytes end too soon, Cut has the value so far: whatever follows, the number is at least 128 times that.
// Over: above 2^64 - 1, whatever follows.
#[derive(Clone, Copy)]
pub enum NumberError {
    Cut(u64),
    Over,
}

// How many values a group has.
const GROUP: u64 = 128;

// The largest value of the groups so far behind which one more group fits in 64 bits.
const LARGEST_WITH_MORE: u64 = (1 << 57) - 2;

// v * base + digit, where that is at most `most`; `largest` is most / base. The value is tested before it is multiplied, so that no product wraps.
fn grow(v: u64, digit: u64, base: u64, most: u64, largest: u64) -> Option<u64>
    requires { (0 < base) × (largest ≡ most / base) }
    ensures { result ≡ grown v digit base most }
{
    if largest < v {
        return None;
    }
    let product = v * base;
    if most - product < digit {
        return None;
    }
    Some(product + digit)
}

// The value of a byte that is a digit of the base.
fn digit(x: u8, base: u64) -> Option<u64>
    ensures { MatchOption result (is_digit base x ≡ false) (λ d. (is_digit base x ≡ true) × (d ≡ x - 48)) }
{
    let d = u64::from(x).checked_sub(u64::from(b'0'))?;
    (d < base).then_some(d)
}

// A signed number by its size. A negative one is not 0.
#[derive(Clone, Copy)]
pub enum Signed {
    Plain(u64),
    Negative(u64),
}

// A number with no minus before it.
fn plainly(u: Option<(u64, usize)>) -> Option<(Signed, usize)>
    ensures { result ≡ plain u }
{
    let (v, e) = u?;
    Some((Signed::Plain(v), e))
}

// A number with a minus before it.
fn negate(u: Option<(u64, usize)>) -> Option<(Signed, usize)>
    ensures { result ≡ negated u }
{
    let (v, e) = u?;
    if v == 0 {
        return Some((Signed::Plain(0), e));
    }
    Some((Signed::Negative(v), e))
}

// The part of a file that ends at a place: what stands behind that is not read.
#[derive(Clone, Copy)]
pub struct Part<'a> {
    pub bytes: &'a [u8],
    pub end: usize,
    ghost inside: { end ≤ length bytes.now },
}

impl Part<'_> {
    // The place of the first NUL from `at` on.
    pub fn first_nul(self, at: usize) -> Option<usize>
        ensures { result ≡ nul_at self.entry.bytes.now at self.entry.end }
    {
        slices::first_nul(self.bytes, at, self.end)
    }

    // The number in seven-bit groups from `at` on, with the place behind it.
    pub fn seven_bit(self, at: usize) -> Result<(u64, usize), NumberError>
        ensures { result ≡ number_at self.entry.bytes.now at self.entry.end }
    {
        let mut a: u64 = 0;
        for i in at..self.end {
            let c = u64::from(self.bytes[i]);
            let v = a * GROUP + c % GROUP;
            if c < GROUP {
                return Ok((v, i + 1));
            }
            if LARGEST_WITH_MORE < v {
                return Err(NumberError::Over);
            }
            a = v + 1;
        }
        Err(NumberError::Cut(a))
    }

    // The digits from `at` on, none or more, whose value is at most `most`, with the place behind them.
    fn run_of_digits(self, at: usize, base: u64, most: u64) -> Option<(u64, usize)>
        requires at_le_end { at ≤ self.end }
        requires base_nonzero { 0 < base }
        ensures { result ≡ digits_in base most (self.entry.end - at) (drop at self.entry.bytes.now) at 0 }
    {
        let largest = most / base;
        let mut v: u64 = 0;
        for i in at..self.end {
            let Some(d) = digit(self.bytes[i], base) else {
                return Some((v, i));
            };
            v = grow(v, d, base, most, largest)?;
        }
        Some((v, self.end))
    }

    // One or more digits from `at` on, whose value is at most `most`, with the place behind them.
    pub fn digits(self, at: usize, base: u64, most: u64) -> Option<(u64, usize)>
        ensures { result ≡ unsigned_at base most self.entry.bytes.now at self.entry.end }
    {
        if self.end <= at || digit(self.bytes[at], base).is_none() {
            return None;
        }
        self.run_of_digits(at, base, most)
    }

    // A number with an optional sign, from -half to half - 1, with the place behind it.
    pub fn signed_digits(self, at: usize, base: u64, half: u64) -> Option<(Signed, usize)>
        ensures { result ≡ signed_at base half self.entry.bytes.now at self.entry.end }
    {
        if self.end <= at {
            return None;
        }
        let most = half.saturating_sub(1);
        match self.bytes[at] {
            b'+' => plainly(self.digits(at + 1, base, most)),
            b'-' => negate(self.digits(at + 1, base, half)),
            _ => plainly(self.digits(at, base, most)),
        }
    }
}

// How many digits x has; 0 has one, as 1 has.
pub fn decimal_size(x: u64) -> usize
    ensures { result ≡ length (digits_of 10 x) }
{
    x.max(1).ilog10() as usize + 1
}

// Writes x at `at` in the fewest decimal digits, and answers the place behind them. The library prints numbers to a writer of text, which no lent bytes are.
pub fn put_decimal(d: &mut [u8], at: usize, x: u64) -> usize
    requires { at + length (digits_of 10 x) ≤ length d.old }
    ensures { (result ≡ at + length (digits_of 10 x)) × (d.new ≡ put d.old at (digits_of 10 x)) }
{
    if x < 10 {
        d[at] = b'0' + x as u8;
        return at + 1;
    }
    let next = put_decimal(d, at, x / 10);
    d[next] = b'0' + (x % 10) as u8;
    next + 1
}
