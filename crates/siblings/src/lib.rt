// Whether the names of a node's children differ. Children in strict order of name are settled while they are read, each compared with the one before it. Where
// they come in no order that is known here, the reader sorts them (link_sort), and in a table that is checked each is compared with all before it.

#![tactic(auto)]

ghost use Rattle.std.specs.Prelude.{◌≡◌};
ghost use Rattle.slices.specs.Bytes.{same_bytes};
ghost use Rattle.node.specs.Store.{name_at};
ghost use Rattle.siblings.specs.Siblings.{twin, repeats, siblings_differ};
ghost use Rattle.siblings.specs.Rising.{before, git_before, risen};

// Whether a stands before b: by bytes, a prefix first.
// By a loop: with the library's `cmp` a TREE of short names took a tenth longer to read, with its `<` one of long names a quarter.
pub fn comes_before(a: &[u8], b: &[u8]) -> bool
    ensures { result ≡ before a.now b.now }
{
    for i in 0..a.len().min(b.len()) {
        if a[i] != b[i] {
            return a[i] < b[i];
        }
    }
    a.len() < b.len()
}

// Whether a name of m bytes stands before one of n in git's own order: the shorter first, and by bytes where they are equally long.
fn ahead_in_git(m: usize, n: usize, less: bool) -> bool
    ensures { result ≡ git_before m n less }
{
    m < n || m == n && less
}

// The children that were read so far: the last of them, or their parent where there is none, and whether all are in order by bytes, and in git's own order.
// `last` is no Option, since the definition `risen`, which the theorems on trees cite, reads it so.
#[derive(Drop)]
pub struct Rising {
    pub last: usize,
    pub bytes: bool,
    pub git: bool,
}

// The same with one child more.
pub fn rises(file: &[u8], nodes: &[u8], me: usize, so: Rising, child: usize) -> Rising
    ensures { result ≡ risen file.now nodes.now me so child }
{
    if so.last == me {
        return Rising { last: child, ..so };
    }
    let a = node::name(file, nodes, so.last);
    let b = node::name(file, nodes, child);
    let less = comes_before(a, b);
    Rising {
        last: child,
        bytes: so.bytes && less,
        git: so.git && ahead_in_git(a.len(), b.len(), less),
    }
}

// Whether nodes i and j have the same name. By the loop of `slices::same`: with the library's `==` a table whose siblings stand in no known order took half as long
// again to check.
pub fn same_name(file: &[u8], nodes: &[u8], i: usize, j: usize) -> bool
    ensures { result ≡ same_bytes (name_at file.now nodes.now i) (name_at file.now nodes.now j) }
{
    let a = node::name(file, nodes, i);
    let b = node::name(file, nodes, j);
    a.len() == b.len() && slices::same(a, 0, b, 0, a.len())
}

// Whether node j is a child of the parent and has the name of node i.
fn is_twin(file: &[u8], nodes: &[u8], parent: u64, i: usize, j: usize) -> bool
    ensures { result ≡ twin file.now nodes.now parent i j }
{
    node::parent(nodes, j) == parent && same_name(file, nodes, i, j)
}

// Whether node i is a child of the parent and one of its children from `first` on and before i has its name.
fn is_repeated(file: &[u8], nodes: &[u8], parent: u64, first: usize, i: usize) -> bool
    ensures { result ≡ repeats file.now nodes.now parent first i }
{
    node::parent(nodes, i) == parent && (first..i).any(|j| is_twin(file, nodes, parent, i, j))
}

// Whether no two children of the parent among the nodes from `first` on and before `used` have the same name.
pub fn siblings_differ(file: &[u8], nodes: &[u8], parent: u64, first: usize, used: usize) -> bool
    ensures { result ≡ siblings_differ file.now nodes.now parent first used }
{
    !(first..used).any(|i| is_repeated(file, nodes, parent, first, i))
}
