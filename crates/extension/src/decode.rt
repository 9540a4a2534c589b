// All extensions of a file: they fill the space behind the entries exactly, and none is there that must be understood and is not.
ghost use Rattle.std.specs.Prelude.{◌≡◌};
ghost use Rattle.extension.specs.Decode.{mandatory, forbidden, marks, latest, latest_of, all_at};

use crate::iter::{Body, Cursor};
use crate::{FIRST_BYTE, SDIR, TREE};
use wire::FileAt;

// The bodies that the reader goes into: for each such signature the last extension that has it.
#[derive(Clone, Copy)]
pub struct Bodies {
    pub tree: Option<Body>,
}

// A space that extensions fill: whether they mark the index sparse, and the bodies that the reader goes into.
#[derive(Clone, Copy)]
pub struct Filled {
    pub sparse: bool,
    pub bodies: Bodies,
}

// Why the space behind the entries is refused: the place where no extension stands although the space is not used up, or the signature of an extension that must be
// understood and is not.
#[derive(Clone, Copy)]
pub enum Error {
    NotFilled(FileAt),
    Mandatory(u32),
}

// Whether an extension must be understood, by its signature's first byte: a reader may pass over those from A to Z alone.
fn is_mandatory(first: u8) -> bool
    ensures { result ≡ mandatory first }
{
    !matches!(first, b'A'..=b'Z')
}

// Whether an extension is one that the reader must refuse: it must be understood, and is no empty `sdir`.
#[tactic(auto, unfolding(crate::specs::Decode::forbidden))]
fn is_forbidden(signature: u32, body: Body) -> bool
    ensures { result ≡ forbidden signature body.start.0 body.stop.0 }
{
    is_mandatory((signature / FIRST_BYTE) as u8)
        && (signature != SDIR || body.start.0 < body.stop.0)
}

// The mark after one more extension.
fn mark(signature: u32, sparse: bool) -> bool
    ensures { result ≡ marks signature sparse }
{
    signature == SDIR || sparse
}

// The last body of the wanted signature after one more extension.
fn later(wanted: u32, signature: u32, body: Body, last: Option<Body>) -> Option<Body>
    ensures { result ≡ latest wanted signature body.start body.stop last }
{
    if signature == wanted {
        Some(body)
    } else {
        last
    }
}

// The bodies after one more extension.
fn latest(signature: u32, body: Body, last: Bodies) -> Bodies
    ensures { result ≡ latest_of signature body.start body.stop last }
{
    Bodies {
        tree: later(TREE, signature, body, last.tree),
    }
}

// Walks the space from `from` up to `end`.
#[tactic(auto, unfolding(crate::specs::Decode::all_at))]
pub fn all(file: &[u8], from: FileAt, end: FileAt) -> Result<Filled, Error>
    ensures { result ≡ all_at file.now from.0 end.0 }
{
    let mut here = Cursor { at: from, end };
    let mut sparse = false;
    let mut bodies = Bodies { tree: None };
    // a loop, since a space that is filled and one that is not end it in two ways
    loop {
        let Ok(step) = here.step(file) else {
            return Err(Error::NotFilled(here.at));
        };
        let Some(found) = step else {
            return Ok(Filled { sparse, bodies });
        };
        if is_forbidden(found.signature, found.body) {
            return Err(Error::Mandatory(found.signature));
        }
        sparse = mark(found.signature, sparse);
        bodies = latest(found.signature, found.body, bodies);
        here = found.next;
    }
}
