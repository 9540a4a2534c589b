// Whether the names of a node's children differ, where they come in no order that is known: in time that grows with how many they are times its logarithm, and
// without further memory. When a node's last subtree is done, its children's parents all hold its number, and nobody reads them. They carry the links of a list
// that is strung by number, from the last child backwards, and sorted by name in halves; then a walk along the list sees equal names side by side and puts the
// parents back. Lists are counted, so that they need no end mark. A merge takes the lesser of two first nodes and puts it in front of those that were taken, so
// its result goes the other way.

#![tactic(auto)]

ghost use Rattle.std.specs.Prelude.{◌≡◌};
ghost use Rattle.link_sort.specs.Runs.{is_before, takes_left, turn_of, merge_run, lone_of, sort_run, still_of, step_of, begun, walk_run, strung_kids, sorted_differ};

// How often a list can be halved: as often as a number of 64 bits.
const LEVELS: usize = 64;

// Two lists, their first nodes and how many they have, and the list of those that were taken from them.
#[derive(Clone, Copy)]
struct Runs {
    x: usize,
    nx: usize,
    y: usize,
    ny: usize,
    out: usize,
}

// A list: its first node, and how many it has.
#[derive(Clone, Copy)]
struct Strung {
    first: usize,
    count: usize,
}

// A part of a list, sorted: its first node, and where the list goes on behind the part.
#[derive(Clone, Copy)]
struct Sorted {
    first: usize,
    rest: usize,
}

// A walk along a list: the node that is next, and whether all neighbours so far differ.
#[derive(Clone, Copy)]
struct Walk {
    x: usize,
    differ: bool,
}

// Whether node i comes before node j: by name, and by number where the names are equal.
#[tactic(auto, using(crate::proofs::Laws::orders), unfolding(crate::specs::Runs::is_before))]
fn comes_before(file: &[u8], nodes: &[u8], i: usize, j: usize) -> bool
    ensures { result ≡ is_before file.now nodes.now i j }
{
    let names = access::order::compare(node::name(file, nodes, i), node::name(file, nodes, j));
    names.then(i.cmp(&j)).is_lt()
}

// Whether the next node is taken from the first list: it has one, and the second has none or has the later one.
#[tactic(auto, unfolding(crate::specs::Runs::takes_left))]
fn takes_left(file: &[u8], nodes: &[u8], r: Runs, up: bool) -> bool
    ensures { result ≡ takes_left file.now up nodes.now r }
{
    r.nx != 0 && (r.ny == 0 || comes_before(file, nodes, r.x, r.y) == up)
}

// Takes a node from one of the two lists and puts it in front of those that were taken.
#[tactic(auto, unfolding(crate::specs::Runs::turn_of))]
fn take_one(file: &[u8], nodes: &mut [u8], r: Runs, up: bool) -> Runs
    ensures { (result, nodes.new) ≡ turn_of file.now up nodes.old r }
{
    let Runs { x, nx, y, ny, out } = r;
    if takes_left(file, nodes, r, up) {
        let next = node::parent(nodes, x) as usize;
        node::put_parent(nodes, x, out as u64);
        Runs {
            x: next,
            nx: nx.saturating_sub(1),
            out: x,
            ..r
        }
    } else {
        let next = node::parent(nodes, y) as usize;
        node::put_parent(nodes, y, out as u64);
        Runs {
            y: next,
            ny: ny.saturating_sub(1),
            out: y,
            ..r
        }
    }
}

// Merges two lists, of n nodes together, into one that goes the other way, and answers where it starts.
#[tactic(auto, using(crate::proofs::Laws::sorts))]
fn merge(file: &[u8], nodes: &mut [u8], both: Runs, n: usize, up: bool) -> usize
    ensures { (result, nodes.new) ≡ merge_run file.now up n nodes.old both }
{
    let mut runs = both;
    for _ in 0..n {
        runs = take_one(file, nodes, runs, up);
    }
    runs.out
}

// A part of one node or none is sorted.
#[tactic(auto, unfolding(crate::specs::Runs::lone_of))]
fn lone(nodes: &[u8], first: usize, n: usize) -> Sorted
    ensures { result ≡ lone_of first n nodes.now }
{
    let rest = if n == 0 {
        first
    } else {
        node::parent(nodes, first) as usize
    };
    Sorted { first, rest }
}

// Sorts the first n nodes of the list that starts at `first`, rising or falling: two halves, sorted the other way, are merged. The way is a flag, as the definition
// `sort_run` takes it.
#[tactic(auto, using(crate::proofs::Laws::sorts))]
fn sort(file: &[u8], nodes: &mut [u8], first: usize, n: usize, up: bool, levels: usize) -> Sorted
    ensures { (result, nodes.new) ≡ sort_run file.now levels up first n nodes.old }
{
    if levels == 0 || n < 2 {
        return lone(nodes, first, n);
    }
    let half = n / 2;
    let others = n - half;
    let down = !up;
    let a = sort(file, nodes, first, half, down, levels - 1);
    let b = sort(file, nodes, a.rest, others, down, levels - 1);
    let both = Runs {
        x: a.first,
        nx: half,
        y: b.first,
        ny: others,
        out: 0,
    };
    let first = merge(file, nodes, both, n, down);
    Sorted { first, ..b }
}

// Whether neighbours still differ: the last of a list has no next.
#[tactic(auto, using(crate::proofs::Laws::orders), unfolding(crate::specs::Runs::still_of))]
fn still(file: &[u8], nodes: &[u8], was: bool, left: usize, x: usize, next: usize) -> bool
    ensures { result ≡ still_of file.now nodes.now was left x next }
{
    if left < 2 {
        return was;
    }
    let names = access::order::compare(node::name(file, nodes, x), node::name(file, nodes, next));
    was && names.is_ne()
}

// One node of a list, which so many are left of, has `me` for its parent again.
#[tactic(auto, unfolding(crate::specs::Runs::step_of))]
fn release(file: &[u8], nodes: &mut [u8], w: Walk, left: usize, me: u64) -> Walk
    ensures { (result, nodes.new) ≡ step_of file.now me left nodes.old w }
{
    let next = node::parent(nodes, w.x) as usize;
    let differ = still(file, nodes, w.differ, left, w.x, next);
    node::put_parent(nodes, w.x, me);
    Walk { x: next, differ }
}

// Every node of a list has `me` for its parent again; whether neighbours differ.
#[tactic(auto, using(crate::proofs::Laws::walks))]
fn release_all(file: &[u8], nodes: &mut [u8], first: usize, count: usize, me: u64) -> bool
    ensures { (result, nodes.new) ≡ walk_run file.now me count nodes.old (begun first) }
{
    let mut w = Walk {
        x: first,
        differ: true,
    };
    for left in (1..=count).rev() {
        w = release(file, nodes, w, left, me);
    }
    w.differ
}

// Strings the children of `me` up to `last` into a list by number. The climb from the node before a child leads to the child before it, over nodes that no other
// folder's climbs go over.
#[tactic(auto, using(crate::proofs::Laws::walks))]
fn string_kids(nodes: &mut [u8], me: usize, last: usize) -> Strung
    ensures { (result, nodes.new) ≡ strung_kids me last nodes.old }
{
    let mut list = Strung { first: 0, count: 0 };
    let mut kid = last;
    // a walk by parents, whose next child the store tells: no count of it is known
    while me < kid {
        let earlier = walk_order::kid_above(nodes, me, kid - 1);
        node::put_parent(nodes, kid, list.first as u64);
        list = Strung {
            first: kid,
            count: list.count + 1,
        };
        kid = earlier;
    }
    list
}

// Whether the names of the children of `me` up to `last` differ, where `last` is the last of them, or `me` where it has none. The store is at the end as it was.
#[tactic(auto, unfolding(crate::specs::Runs::sorted_differ))]
pub fn differ(file: &[u8], nodes: &mut [u8], me: usize, last: usize) -> bool
    ensures { (result, nodes.new) ≡ sorted_differ file.now me last nodes.old }
{
    let Strung { first, count } = string_kids(nodes, me, last);
    let sorted = sort(file, nodes, first, count, true, LEVELS);
    release_all(file, nodes, sorted.first, count, me as u64)
}
