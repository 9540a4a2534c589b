// One entry of the index, measured: where it ends, its record's flags, and how its path is made. Versions 2 and 3 pad to a multiple of 8; version 4
// strips the path before. Nothing is stored here, so what is refused leaves nothing behind.

#![tactic(auto)]

ghost use Rattle.std.specs.Prelude.{◌≡◌, ◌+◌, ◌*◌, ◌/◌, ◌%◌, ◌^◌, ◌≤◌, ◌<◌, length, is_none, unwrap_or};
ghost use Rattle.format.specs.Format.{fixed_extended_size, id_size};
ghost use Rattle.measure.specs.Entry.{extended_at, head_at, HeadFits, padded_to, padded_at, kept_of, suffixed_at, compressed_at, measure_at};

use wire::{FileAt, NumberError, Part};

// The part of fixed length: the record's flags, how many bytes it has, and the length field.
#[derive(Clone, Copy)]
pub struct Head {
    pub flags: u32,
    pub size: usize,
    pub field: usize,
}

// An entry: its path is `keep` bytes of the path before and then `len` bytes of the file from `suffix` on; the next entry starts at `next`.
#[derive(Clone, Copy)]
pub struct Measured {
    pub flags: u32,
    pub keep: usize,
    pub suffix: FileAt,
    pub len: usize,
    pub next: FileAt,
}

// Why no entry is spelled. Short: cut short, some continuation could spell it. Fault: none could.
#[derive(Clone, Copy)]
pub enum Unspelled {
    Short,
    Fault,
}

// The word of which b is the upper byte, and the lower is 0.
fn upper_byte(b: u8) -> u16
    ensures { result ≡ b * 256 }
{
    b as u16 * 256
}

// The bits after EXTENDED, which begin at `at`; of one byte alone it can be told whether it spoils them.
#[tactic(auto, unfolding(crate::specs::Entry::extended_at))]
fn read_extended(part: Part, at: usize, kept: u32, field: usize) -> Result<Head, Unspelled>
    requires at_le_end { at ≤ part.end }
    requires kept_bound { kept < 65536 }
    ensures { result ≡ extended_at id_size part.entry.bytes.now at part.entry.end kept field }
{
    let room = part.end - at;
    if room < 1 {
        return Err(Unspelled::Short);
    }
    if room < 2 {
        return match entry::flags::extended_to_memory(upper_byte(part.bytes[at])) {
            Some(_) => Err(Unspelled::Short),
            None => Err(Unspelled::Fault),
        };
    }
    let word = wire::be16(part.bytes, at);
    let bits = entry::flags::extended_to_memory(word).ok_or(Unspelled::Fault)?;
    Ok(Head {
        flags: kept + bits,
        size: format::FIXED_EXTENDED_SIZE,
        field,
    })
}

#[tactic(auto, unfolding(crate::specs::Entry::head_at, crate::specs::Entry::head_with))]
fn read_head(part: Part, at: usize) -> Result<Head, Unspelled>
    ensures { result ≡ head_at id_size part.entry.bytes.now at part.entry.end }
{
    if part.end < at || part.end - at < format::FIXED_SIZE {
        return Err(Unspelled::Short);
    }
    let word = wire::be16(part.bytes, at + format::FLAGS_AT);
    let flags = entry::flags::to_memory(word);
    let field = (word % 4096) as usize;
    if entry::flags::is_extended(flags) {
        return read_extended(part, at + format::FIXED_SIZE, flags, field);
    }
    Ok(Head {
        flags,
        size: format::FIXED_SIZE,
        field,
    })
}

// The entry's end where its path has len bytes, after `size` bytes of fixed length: 1 to 8 bytes of padding.
#[tactic(auto, unfolding(crate::specs::Entry::padded_to, crate::specs::Entry::whole_of))]
fn padded_to(
    at: usize,
    end: usize,
    flags: u32,
    size: usize,
    len: usize,
) -> Result<Measured, Unspelled>
    requires at_le_end { (at ≤ end) × (size ≤ fixed_extended_size) }
    requires end_bound { (end < 2 ^ 63) × (len < 2 ^ 63) }
    ensures { result ≡ padded_to at end flags size len }
{
    let whole = (size + len + 8) / 8 * 8;
    if end - at < whole {
        return Err(Unspelled::Short);
    }
    Ok(Measured {
        flags,
        keep: 0,
        suffix: FileAt(at + size),
        len,
        next: FileAt(at + whole),
    })
}

// Versions 2 and 3.
#[tactic(auto, unfolding(crate::specs::Entry::padded_at))]
fn padded(part: Part, at: usize, head: Head) -> Result<Measured, Unspelled>
    requires { HeadFits (length part.bytes.now) at part.end head.size head.field }
    ensures { result ≡ padded_at part.entry.bytes.now at part.entry.end head.flags head.size head.field }
{
    if head.field == format::LONG_PATH {
        let path = at + head.size;
        let z = part.first_nul(path).ok_or(Unspelled::Short)?;
        padded_to(at, part.end, head.flags, head.size, z - path)
    } else {
        padded_to(at, part.end, head.flags, head.size, head.field)
    }
}

// What a strip leaves of the path before, which has `prev` bytes. The first entry has none before it, and its strip is ignored.
#[tactic(auto, unfolding(crate::specs::Entry::kept_of))]
fn bytes_kept(prev: Option<usize>, strip: u64) -> Option<usize>
    ensures { result ≡ kept_of (is_none prev) (unwrap_or prev 0) strip }
{
    match prev {
        Some(length) => length.checked_sub(strip as usize),
        None => Some(0),
    }
}

// The suffix from `from` on, to a NUL.
#[tactic(auto, unfolding(crate::specs::Entry::suffixed_at))]
fn suffixed(part: Part, from: usize, flags: u32, keep: usize) -> Result<Measured, Unspelled>
    ensures { result ≡ suffixed_at part.entry.bytes.now from part.entry.end flags keep }
{
    let z = part.first_nul(from).ok_or(Unspelled::Short)?;
    Ok(Measured {
        flags,
        keep,
        suffix: FileAt(from),
        len: z - from,
        next: FileAt(z + 1),
    })
}

// Version 4: how many bytes of the path before go, and a suffix up to a NUL. A number that is cut short comes to at least 128 times its value so far.
#[tactic(auto, unfolding(crate::specs::Entry::compressed_at))]
fn compressed(
    part: Part,
    from: usize,
    flags: u32,
    prev: Option<usize>,
) -> Result<Measured, Unspelled>
    ensures { result ≡ compressed_at part.entry.bytes.now from part.entry.end flags (is_none prev) (unwrap_or prev 0) }
{
    match part.seven_bit(from) {
        Ok((v, e)) => {
            let keep = bytes_kept(prev, v).ok_or(Unspelled::Fault)?;
            suffixed(part, e, flags, keep)
        }
        Err(NumberError::Cut(a)) => match bytes_kept(prev, a * 128) {
            Some(_) => Err(Unspelled::Short),
            None => Err(Unspelled::Fault),
        },
        Err(NumberError::Over) => Err(Unspelled::Fault),
    }
}

// The entry at `at`, which has to end at or before `end`. The path before it has `prev` bytes; none comes before the first entry of a block.
#[tactic(auto, unfolding(crate::specs::Entry::measure_at))]
pub fn measure(
    file: &[u8],
    at: FileAt,
    end: FileAt,
    version: u32,
    prev: Option<usize>,
) -> Result<Measured, Unspelled>
    ensures { result ≡ measure_at id_size file.now at.0 end.0 version (is_none prev) (unwrap_or prev 0) }
{
    if file.len() < end.0 {
        return Err(Unspelled::Short);
    }
    let part = Part {
        bytes: file,
        end: end.0,
    };
    let head = read_head(part, at.0)?;
    match version {
        4 => compressed(part, at.0 + head.size, head.flags, prev),
        _ => padded(part, at.0, head),
    }
}
