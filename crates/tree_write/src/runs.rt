// The children of a node from the last to the first by name, in a table in walk order. As they stand they fall into runs of rising names: one where siblings
// stand in byte order, and one for each length of name where they stand in git's own order. The last child that is left is then the last of the runs' tails;
// where there is no room for all tails it is found among the children as they stand.
ghost use Rattle.std.specs.Prelude.{◌≡◌, ◌-◌, ◌≤◌, length, MatchOption};
ghost use Rattle.walk_order.specs.Walk.{kid_above};
ghost use Rattle.tree_write.specs.Runs.{goes_on, lead, later, between, Finds, AllDead, Greatest, Ready, Stepped, Takes};

use super::Table;
use super::folder::Folder;

// How many tails of runs are kept in all, by a folder and those that it stands in; each takes two words of the stack.
pub const MOST_RUNS: usize = 2048;

// A child, and where what stands below it ends. Among the tails of runs it is the last child left of its run, and 0, the root, where none is left: an Option
// would take a third word of the stack.
#[derive(Clone, Copy)]
pub struct Kid {
    pub node: usize,
    pub end: usize,
}

impl<'a> Table<'a> {
    // Whether a tail comes after the last one so far; 0 is none.
    #[tactic(auto, unfolding(crate::specs::Runs::later))]
    fn comes_later(self, kid: usize, tail: usize) -> bool
        ensures { result ≡ later self.entry.nodes.now self.entry.names.now kid tail }
    {
        tail != 0 && self.comes_after(kid, tail)
    }

    // The place of the tail that comes last.
    fn last_tail(self, used: usize, tails: &[Kid]) -> Option<usize>
        requires { used ≤ length tails.now }
        ensures { MatchOption result (AllDead used tails.now) (Greatest self.entry.nodes.now self.entry.names.now used tails.now) }
    {
        let mut kid: usize = 0;
        let mut place = None;
        for i in 0..used {
            let tail = tails[i].node;
            if self.comes_later(kid, tail) {
                kid = tail;
                place = Some(i);
            }
        }
        place
    }

    // Whether child c comes before the bound and after the last child so far that does; 0 is none.
    #[tactic(auto, unfolding(crate::specs::Runs::between))]
    fn comes_between(self, kid: usize, c: usize, bound: usize) -> bool
        ensures { result ≡ between self.entry.nodes.now self.entry.names.now kid c bound }
    {
        self.comes_ahead(c, bound) && self.comes_after(kid, c)
    }
}

impl<'a> Folder<'a> {
    // Whether child c goes on the run that begins with e, the child behind it; at the folder's end there is no run yet.
    #[tactic(auto, unfolding(crate::specs::Runs::goes_on))]
    fn goes_on(self, c: usize, e: usize) -> bool
        ensures { result ≡ goes_on self.entry.table.nodes.now self.entry.table.names.now c e self.entry.end }
    {
        e != self.end && self.table.comes_before(c, e)
    }

    // Keeps the tails of the runs of the children, the last of which is given, and answers how many there are. Where they are too many none is kept, so that
    // all room is left to the folders below.
    pub fn begin_runs(self, last: usize, tails: &mut [Kid]) -> Option<usize>
        requires { last ≡ kid_above self.table.nodes.now self.node (self.end - 1) }
        ensures { Ready self.entry.table.nodes.now self.entry.table.names.now self.entry.node 0 result tails.new }
    {
        let mut used: usize = 0;
        let mut stop = self.end;
        let mut child = last;
        // a walk from child to child: no place is counted
        while child != 0 {
            if !self.goes_on(child, stop) {
                if tails.len() <= used {
                    return None;
                }
                tails[used] = Kid {
                    node: child,
                    end: stop,
                };
                used += 1;
            }
            stop = child;
            child = walk_order::kid_above(self.table.nodes, self.node, child - 1);
        }
        Some(used)
    }

    // The child that comes before x in its run, or 0. 0, the root, is no child: walk_order::kid_above and the theorems on the order of children say it so.
    #[tactic(auto, unfolding(crate::specs::Runs::lead))]
    fn lead(self, x: usize) -> usize
        requires { 1 ≤ x }
        ensures { result ≡ lead self.entry.table.nodes.now self.entry.table.names.now self.entry.node x }
    {
        let y = walk_order::kid_above(self.table.nodes, self.node, x - 1);
        if y != 0 && self.table.comes_before(y, x) {
            y
        } else {
            0
        }
    }

    // The last of the tails, whose run steps back to the child before it.
    fn take(self, used: usize, tails: &mut [Kid]) -> Option<Kid>
        requires { used ≤ length tails.old }
        ensures { Stepped self.entry.table.nodes.now self.entry.table.names.now self.entry.node used tails.old tails.new result }
    {
        let place = self.table.last_tail(used, &*tails)?;
        let kid = tails[place];
        let before = self.lead(kid.node);
        tails[place] = Kid {
            node: before,
            end: kid.node,
        };
        Some(kid)
    }

    // The last child that comes before the bound, found among all children.
    fn listed(self, bound: usize) -> Option<Kid>
        ensures { Finds self.entry.table.nodes.now self.entry.table.names.now self.entry.node bound result }
    {
        let mut last = Kid { node: 0, end: 0 };
        let mut stop = self.end;
        let mut child = walk_order::kid_above(self.table.nodes, self.node, stop - 1);
        // a walk from child to child: no place is counted
        while child != 0 {
            if self.table.comes_between(last.node, child, bound) {
                last = Kid {
                    node: child,
                    end: stop,
                };
            }
            stop = child;
            child = walk_order::kid_above(self.table.nodes, self.node, child - 1);
        }
        if last.node == 0 { None } else { Some(last) }
    }

    // The last child that comes before the bound, the child taken before it; 0 is no bound. The tails are then those of the children before it.
    pub fn last_before(self, bound: usize, runs: Option<usize>, tails: &mut [Kid]) -> Option<Kid>
        requires { Ready self.table.nodes.now self.table.names.now self.node bound runs tails.old }
        ensures { Takes self.entry.table.nodes.now self.entry.table.names.now self.entry.node bound runs tails.new result }
    {
        match runs {
            Some(used) => self.take(used, tails),
            None => self.listed(bound),
        }
    }
}
