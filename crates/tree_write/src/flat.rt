// The tree of a table in walk order in which no node stands too deep: as many bytes as the heads of all nodes; and where each child comes before those behind it, these heads,
// one after the other, as they stand. No call goes down the tree.
ghost use Rattle.std.specs.Prelude.{◌≡◌, ◌+◌, ◌≤◌, length};
ghost use Rattle.laws.specs.Put.{put};
ghost use Rattle.sums.specs.Cap.{cap};
ghost use Rattle.format.specs.Format.{depth_limit, id_size};
ghost use Rattle.node.specs.Store.{nodes_in};
ghost use Rattle.tree_write.specs.Flat.{heads_from, rises_at, siblings_rise, is_shallow, is_flat};

use super::Table;

// Whether the table has nodes, is in walk order, and has no node that stands too deep.
#[tactic(auto, unfolding(crate::specs::Flat::is_shallow))]
pub fn is_shallow(nodes: &[u8]) -> bool
    ensures { result ≡ is_shallow depth_limit nodes.now }
{
    node::NODE_SIZE <= nodes.len() && walk_order::walks_within(nodes)
}

impl<'a> Table<'a> {
    // Whether node j, which is not the root, comes after the child of its parent before it, or is the first.
    #[tactic(auto, unfolding(crate::specs::Flat::rises_at))]
    fn rises(self, j: usize) -> bool
        requires { 1 ≤ j }
        ensures { result ≡ rises_at self.entry.nodes.now self.entry.names.now j }
    {
        let parent = node::parent(self.nodes, j) as usize;
        let kid = walk_order::kid_above(self.nodes, parent, j - 1);
        kid == 0 || self.comes_before(kid, j)
    }

    // Whether each child comes after the child before it.
    fn siblings_rise(self) -> bool
        ensures { result ≡ siblings_rise self.entry.nodes.now self.entry.names.now }
    {
        for j in 1..node::nodes_in(self.nodes) {
            if !self.rises(j) {
                return false;
            }
        }
        true
    }

    // Whether the tree is the heads as they stand.
    #[tactic(auto, unfolding(crate::specs::Flat::is_flat))]
    pub fn is_flat(self) -> bool
        ensures { result ≡ is_flat depth_limit self.entry.nodes.now self.entry.names.now }
    {
        is_shallow(self.nodes) && self.siblings_rise()
    }

    // How many bytes the heads of all nodes have.
    pub fn heads_size(self) -> usize
        ensures { result ≡ cap (length (heads_from id_size self.entry.nodes.now self.entry.names.now (nodes_in self.entry.nodes.now) 0)) }
    {
        let mut size: usize = 0;
        for i in 0..node::nodes_in(self.nodes) {
            size = sums::saturating_add(size, self.head_size(i));
        }
        size
    }

    // Writes the heads of all nodes at `at`.
    pub fn put_heads(self, out: &mut [u8], at: usize)
        requires { at + length (heads_from id_size self.nodes.now self.names.now (nodes_in self.nodes.now) 0) ≤ length out.old }
        ensures { out.new ≡ put out.old at (heads_from id_size self.entry.nodes.now self.entry.names.now (nodes_in self.entry.nodes.now) 0) }
    {
        let mut pos = at;
        for i in 0..node::nodes_in(self.nodes) {
            pos = self.put_head(i, out, pos);
        }
    }
}
