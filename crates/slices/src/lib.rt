// Bytes copied, zeroed, compared and searched, by the library's methods where these cost no more. A contract of a copy is one paste: what stood at the place is replaced, and all else is as it was.

#![tactic(auto)]

ghost use Rattle.std.specs.Prelude.{◌≡◌, ◌+◌, ◌≤◌, length, take, drop, replicate};
ghost use Rattle.std.proofs.Math.Seq.{paste};
ghost use Rattle.slices.specs.Bytes.{same_bytes, nul_at};

// Copies n bytes of src from `from` on into dst from `to` on. By a loop: the library's `copy_from_slice` is compiled to a call of memmove, a name that a program in C
// without a C library would have to bring.
pub fn copy_bytes(src: &[u8], from: usize, n: usize, dst: &mut [u8], to: usize)
    requires n_in_bounds { from + n ≤ length src.now }
    requires n_in_bounds_2 { to + n ≤ length dst.old }
    ensures { dst.new ≡ paste dst.old to (drop from src.now) n }
{
    for j in 0..n {
        dst[to + j] = src[from + j];
    }
}

// Copies n bytes of s from `from` on to `to` on, which lies behind them. By a loop, too: the library's `copy_within` goes from the last byte to the first, and took
// 1.7 times as long for the long paths of version 4.
pub fn copy_within(s: &mut [u8], from: usize, n: usize, to: usize)
    requires n_bound { from + n ≤ to }
    requires n_in_bounds { to + n ≤ length s.old }
    ensures { s.new ≡ paste s.old to (drop from s.old) n }
{
    for j in 0..n {
        s[to + j] = s[from + j];
    }
}

// Sets n bytes of d from `to` on to zero.
pub fn clear(d: &mut [u8], to: usize, n: usize)
    requires { to + n ≤ length d.old }
    ensures { d.new ≡ paste d.old to (replicate n 0) n }
{
    d[to..to + n].fill(0);
}

// Whether the n bytes of a from i on are those of b from j on.
pub fn same(a: &[u8], i: usize, b: &[u8], j: usize, n: usize) -> bool
    requires n_in_bounds { i + n ≤ length a.now }
    requires n_in_bounds_2 { j + n ≤ length b.now }
    ensures { result ≡ same_bytes (take n (drop i a.now)) (take n (drop j b.now)) }
{
    for k in 0..n {
        if a[i + k] != b[j + k] {
            return false;
        }
    }
    true
}

// The place of the first NUL from `at` on and before `end`.
pub fn first_nul(s: &[u8], at: usize, end: usize) -> Option<usize>
    requires { end ≤ length s.now }
    ensures { result ≡ nul_at s.now at end }
{
    if end < at {
        return None;
    }
    let n = s[at..end].iter().position(|b| *b == 0)?;
    Some(at + n)
}
