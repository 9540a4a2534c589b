// A cursor by value over a part of the file, which steps from extension to extension.
ghost use Rattle.std.specs.Prelude.{◌≡◌};
ghost use Rattle.extension.specs.Iter.{step_at, first_at};

use wire::FileAt;

// The part of the file from `at` up to `end` that is still to be walked.
#[derive(Clone, Copy)]
pub struct Cursor {
    pub at: FileAt,
    pub end: FileAt,
}

// Where the body of an extension lies.
#[derive(Clone, Copy)]
pub struct Body {
    pub start: FileAt,
    pub stop: FileAt,
}

// An extension, and the cursor behind it.
#[derive(Clone, Copy)]
pub struct Extension {
    pub signature: u32,
    pub body: Body,
    pub next: Cursor,
}

// The bytes at a cursor are no extension.
#[derive(Clone, Copy)]
pub struct Broken;

impl Cursor {
    // The extension that stands here, or none where the end is reached. A cursor whose end lies beyond the file, or before its own place, stands at no extension.
    #[tactic(auto, unfolding(crate::specs::Iter::step_at))]
    pub fn step(self, file: &[u8]) -> Result<Option<Extension>, Broken>
        ensures { result ≡ step_at file.now self.at.0 self.end.0 }
    {
        let at = self.at.0;
        let end = self.end.0;
        if file.len() < end || end < at {
            return Err(Broken);
        }
        if at == end {
            return Ok(None);
        }
        let room = end - at;
        if room < format::EXTENSION_HEADER_SIZE {
            return Err(Broken);
        }
        let size = wire::be32(file, at + 4) as usize;
        if room - format::EXTENSION_HEADER_SIZE < size {
            return Err(Broken);
        }
        let start = at + format::EXTENSION_HEADER_SIZE;
        let stop = FileAt(start + size);
        Ok(Some(Extension {
            signature: wire::be32(file, at),
            body: Body {
                start: FileAt(start),
                stop,
            },
            next: Cursor { at: stop, ..self },
        }))
    }
}

// The body of the first extension of a signature, as far as extensions are found.
#[tactic(auto, using(crate::proofs::Laws::firsts))]
pub fn first_of(file: &[u8], from: FileAt, end: FileAt, wanted: u32) -> Option<Body>
    ensures { result ≡ first_at file.now from.0 end.0 wanted }
{
    let mut here = Cursor { at: from, end };
    // steps of a cursor: how many there are is not known
    while let Ok(Some(found)) = here.step(file) {
        if found.signature == wanted {
            return Some(found.body);
        }
        here = found.next;
    }
    None
}
