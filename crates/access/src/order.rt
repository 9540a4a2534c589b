// The order of records: by the bytes of the path, unsigned, a prefix first; then by stage.
ghost use Rattle.std.specs.Prelude.{◌≡◌, ◌+◌, ◌≤◌, length, drop};
ghost use Rattle.laws.specs.Order.{compared};
ghost use Rattle.access.specs.Order.{order_of, agreeing, EightsOf, stage_order, then_by};

use std::cmp::Ordering;

// The first place from `from` on where a and b part, byte by byte.
#[tactic(auto, using(crate::proofs::Laws::agrees))]
fn agree_from(a: &[u8], b: &[u8], from: usize) -> usize
    ensures { result ≡ from + agreeing (drop from a.now) (drop from b.now) }
{
    let both = a.len().min(b.len());
    for k in from..both {
        if a[k] != b[k] {
            return k;
        }
    }
    both.max(from)
}

// How many leading bytes agree, counted in eights: up to eight that differ, or as far as both have eights. Either has its place, and neither is a failure.
#[derive(Clone, Copy)]
enum Eights {
    DifferAt(usize),
    AgreeTo(usize),
}

// Paths of one index mostly share a long beginning, so this is where a comparison spends its time.
fn pass_eights(a: &[u8], b: &[u8]) -> Eights
    ensures { EightsOf a.now b.now result }
{
    let eights = a.len().min(b.len()) / 8;
    for j in 0..eights {
        let at = j * 8;
        if wire::be64(a, at) != wire::be64(b, at) {
            return Eights::DifferAt(at);
        }
    }
    Eights::AgreeTo(eights * 8)
}

// How many leading bytes agree.
pub fn agree(a: &[u8], b: &[u8]) -> usize
    ensures { result ≡ agreeing a.now b.now }
{
    match pass_eights(a, b) {
        Eights::DifferAt(k) | Eights::AgreeTo(k) => agree_from(a, b, k),
    }
}

// How what stands behind `from` in path a stands to that in path b: decided by the first byte in which they part, where no byte comes before any.
fn compare_from(a: &[u8], b: &[u8], from: usize) -> Ordering
    ensures { result ≡ order_of (compared (drop from a.now) (drop from b.now)) }
{
    let k = agree_from(a, b, from);
    match (a.get(k), b.get(k)) {
        (None, None) => Ordering::Equal,
        (None, Some(_)) => Ordering::Less,
        (Some(_), None) => Ordering::Greater,
        (Some(x), Some(y)) => x.cmp(y),
    }
}

// How path a stands to path b. Eight bytes that differ stand as the numbers that they spell.
pub fn compare(a: &[u8], b: &[u8]) -> Ordering
    ensures { result ≡ order_of (compared a.now b.now) }
{
    match pass_eights(a, b) {
        Eights::DifferAt(k) => wire::be64(a, k).cmp(&wire::be64(b, k)),
        Eights::AgreeTo(k) => compare_from(a, b, k),
    }
}

// Of stages: the library's, under the contract of which `compare_stages_settled` speaks.
#[tactic(auto, using(crate::proofs::Laws::orderings))]
pub fn compare_stages(a: u32, b: u32) -> Ordering
    ensures { result ≡ stage_order a b }
{
    a.cmp(&b)
}

// The first, and where that is equal the second: the library's, likewise (`then_settled`).
#[tactic(auto, using(crate::proofs::Laws::orderings))]
pub fn then(first: Ordering, second: Ordering) -> Ordering
    ensures { result ≡ then_by first second }
{
    first.then(second)
}
