// Whether a node table is proper.

#![tactic(auto)]

ghost use Rattle.std.specs.Prelude.{true, false, ◌≡◌, ◌-◌, ◌<◌};
ghost use Rattle.laws.specs.Pick.{pick};
ghost use Rattle.format.specs.Format.{depth_limit};
ghost use Rattle.node.specs.Store.{nodes_in};
ghost use Rattle.proper.specs.Proper.{parent_fits, count_fits, holds_none, name_fits, climbs, node_fits, child_count, kids_fit, nodes_fit, all_kids_fit, is_proper};
ghost use Rattle.siblings.specs.Siblings.{is_child, repeats, siblings_differ};
ghost use Rattle.walk_order.specs.Walk.{walks};
ghost use Rattle.walk_order.specs.Depth.{walks_within};
ghost use Rattle.proper.specs.Walked.{Child, Complete, Seen, Left, Closed};

use siblings::Rising;

// Whether a name holds no NUL.
#[tactic(auto, unfolding(crate::specs::Proper::holds_none))]
fn holds_none(name: &[u8]) -> bool
    ensures { result ≡ holds_none name.now }
{
    slices::first_nul(name, 0, name.len()).is_none()
}

// A table that is tested, and the bytes in which its names lie. It is shallow where it is in walk order and no node stands too deep.
#[derive(Clone, Copy)]
struct Table<'a> {
    nodes: &'a [u8],
    names: &'a [u8],
    shallow: bool,
    ghost told: { shallow ≡ walks_within depth_limit nodes.now },
}

impl Table<'_> {
    // Whether node 0 has no parent, or another an earlier one.
    fn parent_fits(self, i: usize) -> bool
        ensures { result ≡ parent_fits self.entry.nodes.now i }
    {
        let p = node::parent(self.nodes, i);
        if i == 0 {
            p == node::MINUS_ONE
        } else {
            p < i as u64
        }
    }

    // Whether the count of node i is -1 to 2^31 - 1.
    fn count_fits(self, i: usize) -> bool
        ensures { result ≡ count_fits self.entry.nodes.now i }
    {
        let count = node::count(self.nodes, i);
        count == node::MINUS_ONE || count < node::COUNT_HALF
    }

    // Whether the name of node i lies in the lent bytes and holds no NUL.
    fn name_fits(self, i: usize) -> bool
        ensures { result ≡ name_fits self.entry.nodes.now self.entry.names.now i }
    {
        node::name_inside(self.names, self.nodes, i)
            && holds_none(node::name(self.names, self.nodes, i))
    }

    // Whether the root is reached from node i, over no more nodes than a path may have.
    fn climbs(self, i: usize) -> bool
        ensures { result ≡ climbs self.entry.nodes.now depth_limit i }
    {
        let mut node = i;
        for _ in 0..format::DEPTH_LIMIT {
            if node == 0 {
                return true;
            }
            node = node::parent(self.nodes, node) as usize;
        }
        false
    }

    // In a shallow table no node climbs.
    fn node_fits(self, i: usize) -> bool
        requires { i < nodes_in self.nodes.now }
        ensures { result ≡ node_fits depth_limit self.entry.nodes.now self.entry.names.now i }
    {
        self.parent_fits(i)
            && self.count_fits(i)
            && self.name_fits(i)
            && (self.shallow || self.climbs(i))
    }

    fn nodes_fit(self) -> bool
        ensures { result ≡ nodes_fit depth_limit self.entry.nodes.now self.entry.names.now }
    {
        (0..node::nodes_in(self.nodes)).all(|i| self.node_fits(i))
    }

    fn is_child(self, p: usize, j: usize) -> bool
        ensures { result ≡ is_child self.entry.nodes.now p j }
    {
        node::parent(self.nodes, j) == p as u64
    }

    // How many children node p has.
    fn child_count(self, p: usize) -> usize
        ensures { result ≡ child_count self.entry.nodes.now p (nodes_in self.entry.nodes.now - 1) 1 }
    {
        (1..node::nodes_in(self.nodes))
            .filter(|j| self.is_child(p, *j))
            .count()
    }

    // Whether node i has as many children as it says, and their names differ, by passes over the whole table.
    fn kids_fit_by_passes(self, i: usize) -> bool
        ensures { result ≡ kids_fit self.entry.nodes.now self.entry.names.now i }
    {
        node::subtrees(self.nodes, i) == self.child_count(i) as u64
            && siblings::siblings_differ(
                self.names,
                self.nodes,
                i as u64,
                1,
                node::nodes_in(self.nodes),
            )
    }

    // Whether every node of a table that has one has as many children as it says, and their names differ.
    fn all_kids_fit(self) -> bool
        requires { 0 < nodes_in self.nodes.now }
        ensures { result ≡ all_kids_fit self.entry.nodes.now self.entry.names.now }
    {
        if self.shallow {
            let walked = WalkedTable {
                nodes: self.nodes,
                names: self.names,
            };
            return walked.all_kids_fit();
        }
        (0..node::nodes_in(self.nodes)).all(|i| self.kids_fit_by_passes(i))
    }

    // Whether a table that is not shallow is in walk order all the same: then a node stands too deep.
    fn is_too_deep(self) -> bool
        ensures { result ≡ pick self.entry.shallow false (walks depth_limit self.entry.nodes.now) }
    {
        !self.shallow && walk_order::in_walk_order(self.nodes)
    }
}

// A node's children: how many, and whether they stand in byte order or in git's own order, so that their names differ. Both are told of every node: no Option.
#[derive(Drop)]
pub struct WalkedKids {
    pub count: u64,
    pub rising: bool,
}

// A table in walk order. A node's children are listed from the last to the first: the climb from the node before a child leads to the child before it.
// No child is node 0, which `kid_above` answers where there is none: so these lists end at 0.
#[derive(Clone, Copy)]
struct WalkedTable<'a> {
    nodes: &'a [u8],
    names: &'a [u8],
    ghost walks: { walks depth_limit nodes.now ≡ true },
}

impl WalkedTable<'_> {
    // The children of p, none of which stands behind `last`, each compared with the one before it. The climbs from one to the next go over no node that is
    // listed for another folder.
    fn kids(self, p: usize, last: usize) -> WalkedKids
        requires { Complete self.nodes.now p last }
        ensures { Seen self.entry.nodes.now self.entry.names.now p result }
    {
        let mut so = Rising {
            last,
            bytes: true,
            git: true,
        };
        let mut count: u64 = 0;
        let mut c = walk_order::kid_above(self.nodes, p, last);
        // a walk from child to child: no place is counted
        while c != 0 {
            let b = walk_order::kid_above(self.nodes, p, c - 1);
            so = siblings::rises(self.names, self.nodes, 0, Rising { last: b, ..so }, c);
            count += 1;
            c = b;
        }
        WalkedKids {
            count,
            rising: so.bytes | so.git,
        }
    }

    // Whether a child of p before its child c has the name of c.
    fn has_twin(self, p: usize, c: usize) -> bool
        requires { Child self.nodes.now p c }
        ensures { result ≡ repeats self.entry.names.now self.entry.nodes.now p 1 c }
    {
        let mut b = walk_order::kid_above(self.nodes, p, c - 1);
        // a walk from child to child: no place is counted
        while b != 0 {
            if siblings::same_name(self.names, self.nodes, c, b) {
                return true;
            }
            b = walk_order::kid_above(self.nodes, p, b - 1);
        }
        false
    }

    // Whether the names of the children of p differ, none of which stands behind `last`: each is compared with all before it.
    fn kids_differ(self, p: usize, last: usize) -> bool
        requires { Complete self.nodes.now p last }
        ensures { result ≡ siblings_differ self.entry.names.now self.entry.nodes.now p 1 (nodes_in self.entry.nodes.now) }
    {
        let mut c = walk_order::kid_above(self.nodes, p, last);
        // a walk from child to child: no place is counted
        while c != 0 {
            if self.has_twin(p, c) {
                return false;
            }
            c = walk_order::kid_above(self.nodes, p, c - 1);
        }
        true
    }

    // Whether node p, none of whose children stands behind `last`, has as many children as it says, and their names differ. Only children in no order that is
    // known are compared in pairs.
    // Inlined, since a call would put the table's four words in memory for every folder.
    #[inline(always)]
    fn kids_fit(self, p: usize, last: usize) -> bool
        requires { Complete self.nodes.now p last }
        ensures { result ≡ kids_fit self.entry.nodes.now self.entry.names.now p }
    {
        let kids = self.kids(p, last);
        node::subtrees(self.nodes, p) == kids.count && (kids.rising || self.kids_differ(p, last))
    }

    // Whether the nodes from `from` on up to the one below `to` fit, which stands above: they have no children behind `from`. The last child of each is the
    // node that the climb comes from.
    fn closes(self, from: usize, to: usize) -> bool
        requires { Left self.nodes.now from to }
        ensures { Closed self.entry.nodes.now self.entry.names.now from to result }
    {
        let mut x = from;
        let mut last = from;
        // a walk by parents
        while to < x {
            if !self.kids_fit(x, last) {
                return false;
            }
            last = x;
            x = node::parent(self.nodes, x) as usize;
        }
        true
    }

    // Whether every node has as many children as it says, and their names differ. A node's children are looked at when the climb to the parent of a later node
    // leaves it.
    fn all_kids_fit(self) -> bool
        requires { 0 < nodes_in self.nodes.now }
        ensures { result ≡ all_kids_fit self.entry.nodes.now self.entry.names.now }
    {
        let n = node::nodes_in(self.nodes);
        for j in 1..n {
            if !self.closes(j - 1, node::parent(self.nodes, j) as usize) {
                return false;
            }
        }
        self.closes(n - 1, 0) && self.kids_fit(0, n - 1)
    }
}

pub fn is_proper(nodes: &[u8], names: &[u8]) -> bool
    ensures { result ≡ is_proper depth_limit nodes.now names.now }
{
    if nodes.len() < node::NODE_SIZE {
        return false;
    }
    let table = Table {
        nodes,
        names,
        shallow: walk_order::walks_within(nodes),
    };
    !table.is_too_deep() && table.nodes_fit() && table.all_kids_fit()
}
