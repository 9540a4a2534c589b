// The tree of a table in walk order, from its end to its beginning: there the children of a node are listed backwards with no search through what stands
// below them.
ghost use Rattle.std.specs.Prelude.{true, ◌≡◌, ◌+◌, ◌≤◌, length};
ghost use Rattle.laws.specs.Put.{put};
ghost use Rattle.format.specs.Format.{depth_limit, id_size};
ghost use Rattle.tree_write.specs.Tree.{head_bytes, node_bytes, tree_bytes};
ghost use Rattle.tree_write.specs.Flat.{is_shallow};
ghost use Rattle.tree_write.specs.Spine.{Spine};
ghost use Rattle.tree_write.specs.Back.{Asked, Filed};

use super::Table;
use super::folder::Folder;
use super::runs::Kid;
use super::spine::Rung;

impl<'a> Table<'a> {
    // Writes the head of node i so that it ends at `to`, and answers where it begins.
    fn put_head_ending(self, i: usize, out: &mut [u8], to: usize) -> usize
        requires { (length (head_bytes id_size self.nodes.now self.names.now i) ≤ to) × (to ≤ length out.old) }
        ensures { Filed (head_bytes id_size self.entry.nodes.now self.entry.names.now i) out.old to out.new result }
    {
        let size = self.head_size(i);
        let at = to - size;
        self.put_head(i, out, at);
        at
    }

    // Writes the tree of a table in walk order, in which no node stands too deep, so that it ends at `to`, and answers where it begins.
    pub fn put_tree_ending(self, out: &mut [u8], to: usize) -> usize
        requires shallow { is_shallow depth_limit self.nodes.now ≡ true }
        requires room { (length (tree_bytes id_size depth_limit self.nodes.now self.names.now) ≤ to) × (to ≤ length out.old) }
        ensures { Filed (tree_bytes id_size depth_limit self.entry.nodes.now self.entry.names.now) out.old to out.new result }
    {
        let mut tails = [Kid { node: 0, end: 0 }; super::runs::MOST_RUNS];
        let mut spine = [Rung { node: 0, leaf: 0 }; format::DEPTH_LIMIT];
        let root = Folder {
            table: self,
            node: 0,
            end: node::nodes_in(self.nodes),
        };
        root.put_ending(out, to, format::DEPTH_LIMIT, &mut tails, &mut spine)
    }
}

impl<'a> Folder<'a> {
    // Writes the folder and, by calling itself, what is below it, at most so many levels deep, so that it ends at `to`, and answers where it begins. The tails
    // of its runs are kept in the lent store, those of the folders below it behind them.
    fn put_ending(
        self,
        out: &mut [u8],
        to: usize,
        depth: usize,
        tails: &mut [Kid],
        spine: &mut [Rung],
    ) -> usize
        requires { Asked self.table.nodes.now self.table.names.now self.node depth out.old to spine.old }
        ensures filed { Filed (node_bytes id_size self.entry.table.nodes.now self.entry.table.names.now depth self.entry.node) out.old to out.new result }
        ensures spine { Spine self.entry.table.nodes.now spine.new }
    {
        if depth == 0 {
            return to;
        }
        let last = self.last_kid(depth, spine);
        let runs = self.begin_runs(last, tails);
        let used = runs.unwrap_or(0);
        let mut pos = to;
        let mut bound = 0;
        // each child is asked for by the one written before it, and the tails are lent to those below in between
        while let Some(kid) = self.last_before(bound, runs, tails) {
            let below = Folder {
                table: self.table,
                node: kid.node,
                end: kid.end,
            };
            pos = below.put_ending(out, pos, depth - 1, &mut tails[used..], spine);
            bound = kid.node;
        }
        self.table.put_head_ending(self.node, out, pos)
    }
}
