// The TREE extension, written from a lent node table: siblings in byte order of name. There is no heap. A table in walk order is written from its end, and of
// a folder's children the last that is left is found among the tails of a few runs; elsewhere the next child is found by a pass over the table.

#![tactic(auto)]

ghost use Rattle.std.specs.Prelude.{◌≡◌, [], ◌∷◌, ◌+◌, ◌-◌, ◌≤◌, ◌<◌, length};
ghost use Rattle.laws.specs.Put.{put};
ghost use Rattle.sums.specs.Cap.{cap};
ghost use Rattle.format.specs.Format.{depth_limit, id_size};
ghost use Rattle.tree_write.specs.Order.{before};
ghost use Rattle.tree_write.specs.Tree.{Puts, count_bytes, front_bytes, number_bytes, id_bytes, head_bytes};
ghost use Rattle.tree_write.specs.Tree.{after, ahead, better, next_kid, node_bytes, tree_bytes, put_fit};

mod back;
mod flat;
mod folder;
mod runs;
mod spine;

// How a count of -1 is written.
const OUT_OF_DATE: &[u8] = b"-1";

// The bytes of a head that part its fields: NUL, space and newline.
const MARKS: usize = 3;

// A node table, and the bytes in which its names stand.
#[derive(Clone, Copy)]
struct Table<'a> {
    nodes: &'a [u8],
    names: &'a [u8],
}

// Writes src at `at`, and answers where it ends, as the functions below do: a cursor over the output would have to say in each contract what it has written so far.
fn put_bytes(src: &[u8], out: &mut [u8], at: usize) -> usize
    requires { at + length src.now ≤ length out.old }
    ensures { Puts src.now at out.old out.new result }
{
    let n = src.len();
    slices::copy_bytes(src, 0, n, out, at);
    at + n
}

// Writes one byte at `at`.
fn put_byte(b: u8, out: &mut [u8], at: usize) -> usize
    requires { at < length out.old }
    ensures { (result ≡ at + 1) × (out.new ≡ put out.old at (b ∷ [])) }
{
    out[at] = b;
    at + 1
}

// How many bytes a count has.
#[tactic(auto, unfolding(crate::specs::Tree::count_bytes))]
fn count_size(count: u64) -> usize
    ensures { result ≡ length (count_bytes count) }
{
    if count == node::MINUS_ONE {
        OUT_OF_DATE.len()
    } else {
        wire::decimal_size(count)
    }
}

#[tactic(auto, unfolding(crate::specs::Tree::count_bytes))]
fn put_count(count: u64, out: &mut [u8], at: usize) -> usize
    requires { at + length (count_bytes count) ≤ length out.old }
    ensures { Puts (count_bytes count) at out.old out.new result }
{
    if count == node::MINUS_ONE {
        put_bytes(OUT_OF_DATE, out, at)
    } else {
        wire::put_decimal(out, at, count)
    }
}

impl<'a> Table<'a> {
    // Name, NUL, entry count.
    fn put_front(self, i: usize, out: &mut [u8], at: usize) -> usize
        requires { at + length (front_bytes self.nodes.now self.names.now i) ≤ length out.old }
        ensures { Puts (front_bytes self.entry.nodes.now self.entry.names.now i) at out.old out.new result }
    {
        let name = node::name(self.names, self.nodes, i);
        let count = node::count(self.nodes, i);
        let end = put_bytes(name, out, at);
        let next = put_byte(0, out, end);
        put_count(count, out, next)
    }

    // Space, subtree count, newline.
    fn put_numbers(self, i: usize, out: &mut [u8], at: usize) -> usize
        requires { at + length (number_bytes self.nodes.now i) ≤ length out.old }
        ensures { Puts (number_bytes self.entry.nodes.now i) at out.old out.new result }
    {
        let subtrees = node::subtrees(self.nodes, i);
        let digits = put_byte(b' ', out, at);
        let end = wire::put_decimal(out, digits, subtrees);
        put_byte(b'\n', out, end)
    }

    // The id, unless the count is negative.
    #[tactic(auto, using(laws::specs::Put::put_none), unfolding(crate::specs::Tree::id_bytes))]
    fn put_id(self, i: usize, out: &mut [u8], at: usize) -> usize
        requires { at + length (id_bytes id_size self.nodes.now i) ≤ length out.old }
        ensures { Puts (id_bytes id_size self.entry.nodes.now i) at out.old out.new result }
    {
        if node::count(self.nodes, i) == node::MINUS_ONE {
            at
        } else {
            put_bytes(node::id(self.nodes, i), out, at)
        }
    }

    // Writes the head of node i, and answers where it ends.
    fn put_head(self, i: usize, out: &mut [u8], at: usize) -> usize
        requires { at + length (head_bytes id_size self.nodes.now self.names.now i) ≤ length out.old }
        ensures { Puts (head_bytes id_size self.entry.nodes.now self.entry.names.now i) at out.old out.new result }
    {
        let first = self.put_front(i, out, at);
        let second = self.put_numbers(i, out, first);
        self.put_id(i, out, second)
    }

    // How many bytes the id has, none where the count is negative.
    #[tactic(auto, unfolding(crate::specs::Tree::id_bytes))]
    fn id_size(self, i: usize) -> usize
        ensures { result ≡ length (id_bytes id_size self.entry.nodes.now i) }
    {
        if node::count(self.nodes, i) == node::MINUS_ONE {
            0
        } else {
            node::id(self.nodes, i).len()
        }
    }

    // How many bytes the head of node i has.
    fn head_size(self, i: usize) -> usize
        ensures { result ≡ cap (length (head_bytes id_size self.entry.nodes.now self.entry.names.now i)) }
    {
        let named = sums::saturating_add(node::name(self.names, self.nodes, i).len(), MARKS);
        let counted = sums::saturating_add(named, count_size(node::count(self.nodes, i)));
        let more = wire::decimal_size(node::subtrees(self.nodes, i));
        let numbered = sums::saturating_add(counted, more);
        sums::saturating_add(numbered, self.id_size(i))
    }

    // Whether node i comes before node j: by name, and by index where the names are equal. Every search for a child calls this at each step.
    #[inline(always)]
    fn comes_before(self, i: usize, j: usize) -> bool
        ensures { result ≡ before self.entry.nodes.now self.entry.names.now i j }
    {
        let a = node::name(self.names, self.nodes, i);
        let b = node::name(self.names, self.nodes, j);
        siblings::comes_before(a, b) || (!siblings::comes_before(b, a) && i < j)
    }

    // Whether node j comes after the last child, or there is no last child: 0, the root, is no child. An Option is not used here and below, since the theorems
    // on the order of children say 0 for none (`better`, `kids`).
    #[tactic(auto, unfolding(crate::specs::Tree::after))]
    #[inline(always)]
    fn comes_after(self, last: usize, j: usize) -> bool
        ensures { result ≡ after self.entry.nodes.now self.entry.names.now last j }
    {
        last == 0 || self.comes_before(last, j)
    }

    // Whether node j comes before the best child so far, or there is none so far.
    #[tactic(auto, unfolding(crate::specs::Tree::ahead))]
    #[inline(always)]
    fn comes_ahead(self, j: usize, best: usize) -> bool
        ensures { result ≡ ahead self.entry.nodes.now self.entry.names.now j best }
    {
        best == 0 || self.comes_before(j, best)
    }

    // The better of the best child so far and node j.
    #[tactic(auto, unfolding(crate::specs::Tree::better))]
    fn better_of(self, parent: usize, last: usize, best: usize, j: usize) -> usize
        ensures { result ≡ better self.entry.nodes.now self.entry.names.now parent last best j }
    {
        if node::parent(self.nodes, j) == parent as u64
            && self.comes_after(last, j)
            && self.comes_ahead(j, best)
        {
            j
        } else {
            best
        }
    }

    // The first child of parent after the last one, or 0.
    fn next_kid(self, parent: usize, last: usize) -> usize
        ensures { result ≡ next_kid self.entry.nodes.now self.entry.names.now parent last }
    {
        let mut best = 0;
        for j in 1..node::nodes_in(self.nodes) {
            best = self.better_of(parent, last, best, j);
        }
        best
    }

    // Writes node me and, by calling itself, what is below it, at most so many levels deep. Each child is found by a pass over the table, so this serves any table.
    fn put_node(self, me: usize, out: &mut [u8], at: usize, depth: usize) -> usize
        requires { at + length (node_bytes id_size self.nodes.now self.names.now depth me) ≤ length out.old }
        ensures { Puts (node_bytes id_size self.entry.nodes.now self.entry.names.now depth me) at out.old out.new result }
    {
        if depth == 0 {
            return at;
        }
        let mut pos = self.put_head(me, out, at);
        let mut last = 0;
        for _taken in 0..node::nodes_in(self.nodes) {
            let kid = self.next_kid(me, last);
            if kid == 0 {
                return pos;
            }
            pos = self.put_node(kid, out, pos, depth - 1);
            last = kid;
        }
        pos
    }

    // How many bytes node me and what is below it are written into. A sum needs no order: the children are taken as they stand.
    fn node_size(self, me: usize, depth: usize) -> usize
        ensures { result ≡ cap (length (node_bytes id_size self.entry.nodes.now self.entry.names.now depth me)) }
    {
        if depth == 0 {
            return 0;
        }
        let mut size = self.head_size(me);
        for j in 1..node::nodes_in(self.nodes) {
            if node::parent(self.nodes, j) == me as u64 {
                size = sums::saturating_add(size, self.node_size(j, depth - 1));
            }
        }
        size
    }

    // Writes the tree of a table at `at`, where it fits and ends at `to`, in the order of names.
    fn put_merged(self, out: &mut [u8], at: usize, to: usize)
        requires { (to ≡ at + length (tree_bytes id_size depth_limit self.nodes.now self.names.now)) × (to ≤ length out.old) }
        ensures { out.new ≡ put out.old at (tree_bytes id_size depth_limit self.entry.nodes.now self.entry.names.now) }
    {
        if flat::is_shallow(self.nodes) {
            self.put_tree_ending(out, to);
        } else {
            self.put_node(0, out, at, format::DEPTH_LIMIT);
        }
    }
}

// How many bytes the tree of a table is written into.
pub fn tree_size(nodes: &[u8], names: &[u8]) -> usize
    ensures { result ≡ cap (length (tree_bytes id_size depth_limit nodes.now names.now)) }
{
    let table = Table { nodes, names };
    if flat::is_shallow(nodes) {
        table.heads_size()
    } else {
        table.node_size(0, format::DEPTH_LIMIT)
    }
}

// Writes the tree of a table at `at`; nothing where it does not fit.
pub fn put_tree(nodes: &[u8], names: &[u8], out: &mut [u8], at: usize)
    ensures { out.new ≡ put_fit out.old at (tree_bytes id_size depth_limit nodes.now names.now) }
{
    if out.len() < at {
        return;
    }
    let room = out.len() - at;
    let size = tree_size(nodes, names);
    if room < size {
        return;
    }
    let table = Table { nodes, names };
    if table.is_flat() {
        table.put_heads(out, at);
    } else {
        table.put_merged(out, at, at + size);
    }
}
