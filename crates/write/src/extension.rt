// What follows the entries: the extensions and the trailer. Each part is written at a place of the output, and its writer answers where it ends.
// Contracts speak of these two numbers (`Puts`), and a struct around output and place would hold no less.
ghost use Rattle.std.specs.Prelude.{◌≡◌, ◌+◌, ◌≤◌, length, take};
ghost use Rattle.laws.specs.Put.{put};
ghost use Rattle.format.specs.Format.{id_size, extension_header_size};
ghost use Rattle.sha1_hash.specs.Sha1.{sha1};
ghost use Rattle.kind.specs.Sha1.{sha1_kind};
ghost use Rattle.write.specs.File.{extension_head, tree_head_with, sparse_part, heads_in, eoie_part, trailer_of, Puts};

// What the heads of the extensions before EOIE say: how many bytes TREE's body has, if TREE is written, and whether `sdir` is written.
#[derive(Clone, Copy)]
pub struct Heads {
    pub tree: Option<u32>,
    pub sparse: bool,
}

// How long EOIE's body is, as its header says it.
const EOIE_SIZE: u32 = format::EOIE_SIZE as u32;

// Writes a signature and a size at `at`, and answers where they end.
pub fn put_head(signature: [u8; 4], size: u32, out: &mut [u8], at: usize) -> usize
    requires extension_header_size_in_bounds { at + extension_header_size ≤ length out.old }
    requires signature_len { length signature ≡ 4 }
    ensures { (result ≡ at + extension_header_size) × (out.new ≡ put out.old at (extension_head signature size)) }
{
    slices::copy_bytes(&signature, 0, 4, out, at);
    wire::put32(out, at + 4, size);
    at + format::EXTENSION_HEADER_SIZE
}

// Writes `sdir` if the index is sparse.
pub fn put_sparse(sparse: bool, out: &mut [u8], at: usize) -> usize
    requires { at + length (sparse_part sparse) ≤ length out.old }
    ensures { Puts result out.new out.old at (sparse_part sparse) }
{
    if sparse {
        put_head(*b"sdir", 0, out, at)
    } else {
        at
    }
}

// Writes TREE's signature and size, if TREE is written.
pub fn put_tree_head(tree: Option<u32>, out: &mut [u8], at: usize) -> usize
    requires { at + length (tree_head_with tree) ≤ length out.old }
    ensures { Puts result out.new out.old at (tree_head_with tree) }
{
    match tree {
        Some(size) => put_head(*b"TREE", size, out, at),
        None => at,
    }
}

// The hash of the signatures and sizes of the extensions before EOIE.
fn contents_hash(h: Heads) -> [u8; format::ID_SIZE]
    ensures { result ≡ sha1 (heads_in h) }
{
    let mut toc = [0u8; 2 * format::EXTENSION_HEADER_SIZE];
    let middle = put_tree_head(h.tree, &mut toc, 0);
    let end = put_sparse(h.sparse, &mut toc, middle);
    sha1_hash::sha1_of(&toc[..end])
}

// Writes EOIE, if it is written: where the extensions start, which is known in either case, and the hash of their signatures and sizes.
pub fn put_eoie(has: bool, offset: u32, h: Heads, out: &mut [u8], at: usize) -> usize
    requires { at + length (eoie_part sha1_kind has offset (heads_in h)) ≤ length out.old }
    ensures { Puts result out.new out.old at (eoie_part sha1_kind has offset (heads_in h)) }
{
    if has {
        let hash = contents_hash(h);
        let body = put_head(*b"EOIE", EOIE_SIZE, out, at);
        let last = body + format::OFFSET_SIZE;
        wire::put32(out, body, offset);
        slices::copy_bytes(&hash, 0, format::ID_SIZE, out, last);
        last + format::ID_SIZE
    } else {
        at
    }
}

// Writes the trailer behind the bytes before `at`: their hash, or zeros.
pub fn put_trailer(skips: bool, out: &mut [u8], at: usize)
    requires { at + id_size ≤ length out.old }
    ensures { out.new ≡ put out.old at (trailer_of sha1_kind skips (take at out.old)) }
{
    if skips {
        slices::clear(out, at, format::ID_SIZE);
    } else {
        let hash = sha1_hash::sha1_of(&out[..at]);
        slices::copy_bytes(&hash, 0, format::ID_SIZE, out, at);
    }
}
