// The last child of a node in a table in walk order. The way to it from the last node below is kept, one node a level, so that along a way down each last
// child is found with no climb of its own. What is kept is only believed of the leaf that stands beside it.
ghost use Rattle.std.specs.Prelude.{◌≡◌, ◌-◌, ◌≤◌, ◌<◌, length};
ghost use Rattle.node.specs.Store.{nodes_in};
ghost use Rattle.walk_order.specs.Walk.{kid_above};
ghost use Rattle.walk_order.specs.Below.{Above};
ghost use Rattle.tree_write.specs.Spine.{Spine};

use super::folder::Folder;

// A node that is kept, and the leaf on whose way up it stands.
#[derive(Clone, Copy)]
pub struct Rung {
    pub node: usize,
    pub leaf: usize,
}

// A node on the way from a leaf up, and its place in the spine.
#[derive(Clone, Copy)]
pub struct Foot {
    pub node: usize,
    pub place: usize,
}

impl<'a> Folder<'a> {
    // The highest node on the way from the leaf up to the folder that is kept, or the leaf. The search down the spine and the climb from the leaf go in step, so
    // that it costs no more than the shorter of the two.
    fn find_foot(self, leaf: usize, depth: usize, spine: &[Rung]) -> Foot
        requires depth { (1 ≤ depth) × (depth ≤ length spine.now) }
        requires spine { Spine self.table.nodes.now spine.now }
        ensures { Above self.entry.table.nodes.now result.node leaf × (result.place < depth) }
    {
        let mut node = leaf;
        for place in (0..depth).rev() {
            let kept = spine[place];
            if kept.leaf == leaf {
                return Foot {
                    node: kept.node,
                    place,
                };
            }
            let up = node::parent(self.table.nodes, node);
            if up == self.node as u64 {
                return Foot { node: leaf, place };
            }
            node = up as usize;
        }
        Foot {
            node: leaf,
            place: 0,
        }
    }

    // Climbs from a node on the way to the last place, keeps the nodes that it comes to, and answers the one that it ends with.
    fn climb(self, leaf: usize, depth: usize, from: Foot, spine: &mut [Rung]) -> usize
        requires leaf { leaf < nodes_in self.table.nodes.now }
        requires above { Above self.table.nodes.now from.node leaf × (from.place < depth) }
        requires spine { Spine self.table.nodes.now spine.old × (depth ≤ length spine.old) }
        ensures { Above self.entry.table.nodes.now result leaf × Spine self.entry.table.nodes.now spine.new }
    {
        let mut node = from.node;
        for k in from.place..depth {
            spine[k] = Rung { node, leaf };
            let up = node::parent(self.table.nodes, node);
            if up == self.node as u64 || node <= self.node {
                return node;
            }
            node = up as usize;
        }
        node
    }

    // The last child; 0 where there is none: it is the definition `kid_above`, which theorems cite.
    pub fn last_kid(self, depth: usize, spine: &mut [Rung]) -> usize
        requires depth { (1 ≤ depth) × (depth ≤ length spine.old) }
        requires spine { Spine self.table.nodes.now spine.old }
        ensures kid { result ≡ kid_above self.entry.table.nodes.now self.entry.node (self.entry.end - 1) }
        ensures kept { Spine self.entry.table.nodes.now spine.new }
    {
        let leaf = self.end - 1;
        if leaf == self.node {
            return 0;
        }
        let from = self.find_foot(leaf, depth, &*spine);
        let kid = self.climb(leaf, depth, from, spine);
        if node::parent(self.table.nodes, kid) == self.node as u64 && self.node < kid {
            kid
        } else {
            walk_order::kid_above(self.table.nodes, self.node, leaf)
        }
    }
}
