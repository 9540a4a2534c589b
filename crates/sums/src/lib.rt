// Sums of sizes that stop at the largest number, and differences that stop at 0: a writer sizes before it tests, and no size wraps. These are the library's, with the
// promise in `cap`, whose laws the proofs of all sizes cite.

#![tactic(auto)]

ghost use Rattle.std.specs.Prelude.{◌≡◌, ◌+◌, ◌-◌};
ghost use Rattle.sums.specs.Cap.{cap};

// The sum, or the largest number where that does not fit: the library's, under the contract of which `saturating_add_settled` speaks.
pub fn saturating_add(a: usize, b: usize) -> usize
    ensures { result ≡ cap (a + b) }
{
    a.saturating_add(b)
}

// The difference, or 0 where b is larger: the library's, likewise (`saturating_sub_settled`).
pub fn saturating_sub(a: usize, b: usize) -> usize
    ensures { result ≡ a - b }
{
    a.saturating_sub(b)
}
