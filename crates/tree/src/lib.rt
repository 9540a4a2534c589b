// The TREE extension: a node and its subtrees, in file order, into a lent node store. Where the tree is malformed, too deep or too large for the store, every byte
// lent is zeroed.

#![tactic(auto)]

ghost use Rattle.std.specs.Prelude.{◌≡◌};
ghost use Rattle.tree.specs.Made.{read_up_to};
ghost use Rattle.tree.specs.Tree.{node_at, settled, root_at, read_tree, answer_of, number_of};
ghost use Rattle.siblings.specs.InOrder.{SoFar};
ghost use Rattle.link_sort.specs.Folder.{Folder};
ghost use Rattle.format.specs.Format.{depth_limit, id_size};

use siblings::Rising;

// Why a walk stops.
#[derive(Clone, Copy)]
pub enum Fault {
    Unspelled,
    Deep,
    Full,
}

// A node with all its subtrees: where it ends in the file, and the nodes used after it.
#[derive(Clone, Copy)]
pub struct Read {
    pub next: usize,
    pub used: usize,
}

// Why a tree is refused. One that is malformed is not: there is none then.
#[derive(Clone, Copy)]
pub enum Error {
    TooDeep,
    NoRoom,
}

// A node whose last subtree is done: a name that two of its children have spoils the tree. Children that are in order need no search; others are sorted, by links in
// the node store, which is at the end as it was.
#[tactic(auto, using(crate::proofs::Laws::settles))]
fn settle(
    file: &[u8],
    nodes: &mut [u8],
    me: usize,
    next: usize,
    used: usize,
    so: Rising,
) -> Result<Read, Fault>
    requires so_far { SoFar file.now nodes.old me used so }
    requires folder { Folder nodes.old me used so.last }
    ensures { (result, nodes.new) ≡ settled file.now me (Ok (read_up_to next used), nodes.old) }
{
    if so.bytes || so.git {
        return Ok(Read { next, used });
    }
    if !link_sort::differ(file, nodes, me, so.last) {
        return Err(Fault::Unspelled);
    }
    Ok(Read { next, used })
}

// Reads the node at `at` as node number `used`, and then each of its subtrees by calling itself, one level down.
#[tactic(auto, using(crate::proofs::Laws::walks))]
fn one_recursive(
    file: &[u8],
    at: usize,
    end: usize,
    nodes: &mut [u8],
    used: usize,
    parent: u64,
    depth: usize,
) -> Result<Read, Fault>
    ensures { (result, nodes.new) ≡ node_at id_size file.now end depth parent at used nodes.old }
{
    if depth == 0 {
        return Err(Fault::Deep);
    }
    if nodes.len() / node::NODE_SIZE <= used {
        return Err(Fault::Full);
    }
    let n = node::node_head(file, at, end).ok_or(Fault::Unspelled)?;
    node::put_node(file, n, parent, nodes, used);
    let below = depth - 1;
    let mut next = n.next;
    let mut have = used + 1;
    let mut so = Rising {
        last: used,
        bytes: true,
        git: true,
    };
    for _ in 0..n.subtrees {
        let kid = one_recursive(file, next, end, nodes, have, used as u64, below)?;
        so = siblings::rises(file, nodes, used, so, have);
        next = kid.next;
        have = kid.used;
    }
    settle(file, nodes, used, next, have, so)
}

// Reads the root, behind which nothing follows.
#[tactic(auto, unfolding(crate::specs::Tree::root_at))]
fn root(file: &[u8], start: usize, end: usize, nodes: &mut [u8]) -> Result<Read, Fault>
    ensures { (result, nodes.new) ≡ root_at id_size depth_limit file.now start end nodes.old }
{
    if end < start || file.len() < end {
        return Err(Fault::Unspelled);
    }
    let all = one_recursive(
        file,
        start,
        end,
        nodes,
        0,
        node::MINUS_ONE,
        format::DEPTH_LIMIT,
    )?;
    if all.next == end {
        return Ok(all);
    }
    Err(Fault::Unspelled)
}

fn answer(f: Fault) -> Result<Option<usize>, Error>
    ensures { result ≡ answer_of f }
{
    match f {
        Fault::Unspelled => Ok(None),
        Fault::Deep => Err(Error::TooDeep),
        Fault::Full => Err(Error::NoRoom),
    }
}

// Reads the body of a TREE extension, the bytes of the file from `start` to `end`, into the node store, and answers how many nodes the tree has; none where it is
// malformed.
#[tactic(auto, unfolding(crate::specs::Tree::read_tree))]
pub fn read_tree(
    file: &[u8],
    start: usize,
    end: usize,
    nodes: &mut [u8],
) -> Result<Option<usize>, Error>
    ensures { (result, nodes.new) ≡ read_tree id_size depth_limit file.now start end nodes.old }
{
    match root(file, start, end, nodes) {
        Ok(read) => Ok(Some(read.used)),
        Err(f) => {
            nodes.fill(0);
            answer(f)
        }
    }
}

// The number that 01's table gives an answer; 0 for a tree, and for a malformed one, which refuses nothing.
pub fn number(a: Result<Option<usize>, Error>) -> u32
    ensures { result ≡ number_of a }
{
    match a {
        Ok(_) => 0,
        Err(Error::TooDeep) => refusal::TOO_DEEP,
        Err(Error::NoRoom) => refusal::NO_NODE_ROOM,
    }
}
