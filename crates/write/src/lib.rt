// A whole index file, written into a lent output: everything is sized and tested first, and a refusal leaves the output as it was.

#![tactic(auto)]

ghost use Rattle.std.specs.Prelude.{◌≡◌, ◌+◌, ◌≤◌, length, take, is_some, unwrap_or};
ghost use Rattle.laws.specs.Put.{put};
ghost use Rattle.sums.specs.Cap.{cap};
ghost use Rattle.format.specs.Format.{depth_limit, id_size, header_size};
ghost use Rattle.kind.specs.Sha1.{sha1_kind};
ghost use Rattle.entry.specs.Paths.{lying_in};
ghost use Rattle.write.specs.File.{header_of, front_of, extensions_in, plan_body, plan_file, eoie_for, offset_of, end_of, head_size, end_size, most, tree_of, tree_fits, writes_tree, has_eoie, of_outside, Puts, Counted, outcome, write_table, write_all};

use extension::Heads;
use write_entries::{Outside, Sized};

mod extension;

// The most records, and the most bytes before EOIE's place.
const MOST: usize = u32::MAX as usize;

// What is to be written: five things, each asked for by itself.
#[derive(Clone, Copy)]
pub struct Options {
    // there is a tree
    pub tree: bool,
    // TREE, the tree cache, is asked for
    pub cache: bool,
    // EOIE is asked for
    pub eoie: bool,
    // the index is sparse, which `sdir` marks
    pub sparse: bool,
    // zeros stand in the place of the hash
    pub unhashed: bool,
}

// What is known of a file when it is filled: its version, how many entries it has, the extensions before EOIE, whether EOIE is written, and whether zeros stand in
// the place of the hash.
#[derive(Drop)]
pub struct Plan {
    pub version: u32,
    pub count: u32,
    pub heads: Heads,
    pub eoie: bool,
    pub unhashed: bool,
}

// The version, a number as C is told it, and the size of what was written.
#[derive(Clone, Copy)]
pub struct Written {
    pub version: u32,
    pub size: usize,
}

// Why nothing is written.
#[derive(Clone, Copy)]
pub enum Error {
    PathOutside { index: usize },
    NotProper,
    TooLarge,
    // the size that is needed
    ShortOutput { size: usize },
}

impl From<Outside> for Error {
    ghost from_gives = { λ e x. x ≡ of_outside e };

    fn from(e: Outside) -> Error {
        Error::PathOutside { index: e.index }
    }
}

impl Options {
    // TREE is written if it is given and asked for.
    fn writes_tree(self) -> bool
        ensures { result ≡ writes_tree self }
    {
        self.tree && self.cache
    }

    // EOIE is written if it is asked for, the table holds a record and an extension was written.
    fn has_eoie(self, records: usize) -> bool
        ensures { result ≡ has_eoie records self }
    {
        self.eoie && 0 < records && (self.writes_tree() || self.sparse)
    }
}

// The records of a table, and the store in which their paths lie.
#[derive(Clone, Copy)]
struct Table<'a> {
    records: &'a [u8],
    paths: &'a [u8],
}

// The nodes of a tree, and the store in which their names lie.
#[derive(Clone, Copy)]
struct Tree<'a> {
    nodes: &'a [u8],
    names: &'a [u8],
}

impl Tree<'_> {
    // A tree that is written must be proper.
    fn fits(self, writes: bool) -> bool
        ensures { result ≡ tree_fits depth_limit self.entry.nodes.now self.entry.names.now writes }
    {
        !writes || proper::is_proper(self.nodes, self.names)
    }

    // How many bytes it has, none where TREE is not written.
    fn size(self, writes: bool) -> usize
        ensures { result ≡ cap (length (tree_of id_size depth_limit self.entry.nodes.now self.entry.names.now writes)) }
    {
        if writes {
            tree_write::tree_size(self.nodes, self.names)
        } else {
            0
        }
    }

    // Writes it, of so many bytes, if TREE is written, and answers where it ends.
    fn put(self, tree: Option<u32>, out: &mut [u8], at: usize) -> usize
        requires tree_value { unwrap_or tree 0 ≡ length (tree_of id_size depth_limit self.nodes.now self.names.now (is_some tree)) }
        requires tree_in_bounds { at + length (tree_of id_size depth_limit self.nodes.now self.names.now (is_some tree)) ≤ length out.old }
        ensures { Puts result out.new out.old at (tree_of id_size depth_limit self.entry.nodes.now self.entry.names.now (is_some tree)) }
    {
        match tree {
            Some(size) => {
                tree_write::put_tree(self.nodes, self.names, out, at);
                at + size as usize
            }
            None => at,
        }
    }

    // Writes TREE and `sdir` at `at`, and answers where they end.
    fn put_extensions(self, h: Heads, out: &mut [u8], at: usize) -> usize
        requires tree_value { unwrap_or h.tree 0 ≡ length (tree_of id_size depth_limit self.nodes.now self.names.now (is_some h.tree)) }
        requires h_in_bounds { at + length (extensions_in id_size depth_limit self.nodes.now self.names.now h) ≤ length out.old }
        ensures { Puts result out.new out.old at (extensions_in id_size depth_limit self.entry.nodes.now self.entry.names.now h) }
    {
        let body = extension::put_tree_head(h.tree, out, at);
        let end = self.put(h.tree, out, body);
        extension::put_sparse(h.sparse, out, end)
    }
}

fn put_header(version: u32, count: u32, out: &mut [u8])
    requires { header_size ≤ length out.old }
    ensures { out.new ≡ put out.old 0 (header_of version count) }
{
    slices::copy_bytes(b"DIRC", 0, 4, out, 0);
    wire::put32(out, 4, version);
    wire::put32(out, 8, count);
}

impl Table<'_> {
    // Writes header and entries, and answers where they end.
    fn put_front(self, version: u32, count: u32, out: &mut [u8]) -> usize
        requires { length (front_of id_size self.records.now (lying_in self.paths.now) version count) ≤ length out.old }
        ensures value { result ≡ offset_of id_size self.entry.records.now (lying_in self.entry.paths.now) }
        ensures out_after { out.new ≡ put out.old 0 (front_of id_size self.entry.records.now (lying_in self.entry.paths.now) version count) }
    {
        put_header(version, count, out);
        write_entries::put_entries(self.records, self.paths, out, format::HEADER_SIZE)
    }
}

// Writes EOIE and the trailer behind the bytes before `at`.
fn fill_end(p: Plan, offset: u32, out: &mut [u8], at: usize)
    requires { at + (length (eoie_for sha1_kind p offset) + id_size) ≤ length out.old }
    ensures { out.new ≡ put out.old at (end_of sha1_kind p.unhashed (take at out.old) (eoie_for sha1_kind p offset)) }
{
    let end = extension::put_eoie(p.eoie, offset, p.heads, out, at);
    extension::put_trailer(p.unhashed, out, end);
}

// Writes the whole file.
fn fill(table: Table, tree: Tree, p: Plan, out: &mut [u8])
    requires tree_value { unwrap_or p.heads.tree 0 ≡ length (tree_of id_size depth_limit tree.nodes.now tree.names.now (is_some p.heads.tree)) }
    requires paths_bound { offset_of id_size table.records.now (lying_in table.paths.now) ≤ most }
    requires eoie_in_bounds { length (plan_body id_size depth_limit table.records.now (lying_in table.paths.now) tree.nodes.now tree.names.now p) + end_size id_size p.eoie
        ≤ length out.old }
    ensures { out.new
        ≡ put out.old 0
        (plan_file sha1_kind depth_limit table.entry.records.now (lying_in table.entry.paths.now) tree.entry.nodes.now tree.entry.names.now p) }
{
    let offset = table.put_front(p.version, p.count, out);
    let end = tree.put_extensions(p.heads, out, offset);
    fill_end(p, offset as u32, out, end);
}

// How many bytes an extension's head has, none where it is not written.
fn head_size(there: bool) -> usize
    ensures { result ≡ head_size there }
{
    if there {
        format::EXTENSION_HEADER_SIZE
    } else {
        0
    }
}

// EOIE and the trailer.
const END_SIZE: usize = format::EOIE_WHOLE_SIZE + format::ID_SIZE;

// How many bytes EOIE, if it is written, and the trailer have.
fn end_size(has: bool) -> usize
    ensures { result ≡ end_size id_size has }
{
    if has { END_SIZE } else { format::ID_SIZE }
}

// How many bytes stand before EOIE's place, behind header and entries of so many bytes.
fn body_size(front: usize, writes: bool, tree: usize, sparse: bool) -> usize
    ensures { result ≡ cap (cap (cap (front + head_size writes) + tree) + head_size sparse) }
{
    let headed = sums::saturating_add(front, head_size(writes));
    let treed = sums::saturating_add(headed, tree);
    sums::saturating_add(treed, head_size(sparse))
}

// Writes a table that was sized and whose tree may be written: refuses what is too large or does not fit, and fills the output.
fn write_sized(
    table: Table,
    tree: Tree,
    o: Options,
    t: Sized,
    out: &mut [u8],
) -> Result<Written, Error>
    requires { Counted id_size table.records.now (lying_in table.paths.now) t.version t.count t.size }
    ensures { outcome result out.new
        ≡ write_table sha1_kind depth_limit table.entry.records.now (lying_in table.entry.paths.now) tree.entry.nodes.now tree.entry.names.now o
        out.old }
{
    let n = entry::records_in(table.records);
    let writes = o.writes_tree();
    let tree_size = tree.size(writes);
    let body = body_size(t.size, writes, tree_size, o.sparse);
    if MOST < n || MOST < body {
        return Err(Error::TooLarge);
    }
    let version = t.version;
    let eoie = o.has_eoie(n);
    let whole = body + end_size(eoie);
    if out.len() < whole {
        return Err(Error::ShortOutput { size: whole });
    }
    let heads = Heads {
        tree: writes.then_some(tree_size as u32),
        sparse: o.sparse,
    };
    let plan = Plan {
        version,
        count: t.count as u32,
        heads,
        eoie,
        unhashed: o.unhashed,
    };
    fill(table, tree, plan, out);
    Ok(Written {
        version,
        size: whole,
    })
}

// Writes the index file of a table into out, or says why not, and then out stays as it was.
pub fn write_to(
    records: &[u8],
    paths: &[u8],
    nodes: &[u8],
    names: &[u8],
    o: Options,
    out: &mut [u8],
) -> Result<Written, Error>
    ensures { outcome result out.new
        ≡ write_all sha1_kind depth_limit records.now (lying_in paths.now) nodes.now names.now o out.old }
{
    let sized = write_entries::size_entries(records, paths)?;
    let table = Table { records, paths };
    let tree = Tree { nodes, names };
    if !tree.fits(o.writes_tree()) {
        return Err(Error::NotProper);
    }
    write_sized(table, tree, o, sized, out)
}
