// Node tables in walk order, as the reader stores them: what is below a node stands right behind it. There the climb by parents from a node leads to the child
// of a node above that it stands below, so that children are listed with no search through what stands below them.

#![tactic(auto)]

ghost use Rattle.std.specs.Prelude.{◌≡◌, ◌≤◌};
ghost use Rattle.format.specs.Format.{depth_limit};
ghost use Rattle.walk_order.specs.Walk.{climbs_to, walks, kid_above};
ghost use Rattle.walk_order.specs.Depth.{walks_within, Level, Climbed};

// Whether `to` is `from`, or is reached from there by parents.
fn climbs_to(nodes: &[u8], from: usize, to: usize) -> bool
    ensures { result ≡ climbs_to nodes.now depth_limit from to }
{
    let mut node = from;
    for _ in 0..format::DEPTH_LIMIT {
        if node <= to {
            return node == to;
        }
        node = node::parent(nodes, node) as usize;
    }
    false
}

// Whether the table is in walk order: the parent of each node but the first is the node before it, or is reached from there. Each climb goes over nodes that
// no later one goes over again, so the test costs one pass.
pub fn in_walk_order(nodes: &[u8]) -> bool
    ensures { result ≡ walks depth_limit nodes.now }
{
    (1..node::nodes_in(nodes)).all(|j| climbs_to(nodes, j - 1, node::parent(nodes, j) as usize))
}

// How deep node `to` stands, where it is `from`, which stands so deep, or is reached from there by parents.
fn depth_above(nodes: &[u8], from: usize, depth: usize, to: usize) -> Option<usize>
    requires { Level nodes.now depth from × (depth ≤ depth_limit) }
    ensures { Climbed nodes.now from to result }
{
    let mut node = from;
    let mut left = depth;
    // a walk by parents, as the one below: no place is counted
    while to < node {
        node = node::parent(nodes, node) as usize;
        left -= 1;
    }
    (node == to).then_some(left)
}

// Whether the table is in walk order and no node stands too deep. How deep a node stands follows from the climb to its parent, so this costs no more than the
// order alone.
pub fn walks_within(nodes: &[u8]) -> bool
    ensures { result ≡ walks_within depth_limit nodes.now }
{
    let mut depth: usize = 1;
    for j in 1..node::nodes_in(nodes) {
        let parent = node::parent(nodes, j) as usize;
        let Some(up) = depth_above(nodes, j - 1, depth, parent) else {
            return false;
        };
        if up == format::DEPTH_LIMIT {
            return false;
        }
        depth = up + 1;
    }
    true
}

// The child of p that x is or stands below, or 0, which is nobody's child. In walk order this is the last child of p at x or before: the climb from the node
// before a child leads to the child before it. A climb ends that comes to p or before it, or to a node whose parent does not stand before it.
// It answers no Option, since the definition `kid_above`, which the theorems on written trees cite, says 0.
pub fn kid_above(nodes: &[u8], p: usize, x: usize) -> usize
    ensures { result ≡ kid_above nodes.now p x }
{
    let mut node = x;
    // a walk by parents: no place is counted
    while p < node {
        let up = node::parent(nodes, node);
        if up == p as u64 {
            return node;
        }
        if node as u64 <= up {
            return 0;
        }
        node = up as usize;
    }
    0
}
