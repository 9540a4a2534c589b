// The flags of an entry: 16 bits in the file, 16 more if EXTENDED, and 32 in a record.
ghost use Rattle.std.specs.Prelude.{◌≡◌};
ghost use Rattle.entry.specs.Flags.{stage_raw, stage_of, bit, extended, removed, to_memory, extended_to_memory, to_storage, extended_to_storage};

// The stage of an entry.
#[derive(Clone, Copy)]
pub enum Stage {
    // no conflict
    Unconflicted,
    // the common base of "ours" and "theirs"
    Base,
    Ours,
    Theirs,
}

// The stage as a number from 0 to 3, as C is told it and as records are ordered: bits 12 and 13.
pub fn stage_raw(flags: u32) -> u32
    ensures { result ≡ stage_raw flags }
{
    flags / 4096 % 4
}

#[tactic(auto, unfolding(crate::specs::Flags::stage_of))]
pub fn stage_of(flags: u32) -> Stage
    ensures { result ≡ stage_of flags }
{
    match stage_raw(flags) {
        0 => Stage::Unconflicted,
        1 => Stage::Base,
        2 => Stage::Ours,
        _ => Stage::Theirs,
    }
}

// Whether 16 more bits follow in the file: bit 14, EXTENDED.
pub fn is_extended(flags: u32) -> bool
    ensures { result ≡ bit extended flags }
{
    flags / 16384 % 2 == 1
}

// Whether the entry is marked for removal, and is not written: bit 17, REMOVE.
pub fn is_removed(flags: u32) -> bool
    ensures { result ≡ bit removed flags }
{
    flags / 131072 % 2 == 1
}

// The record's flags from the file's 16 bits: 12 to 15; the low 12 are the path's length.
pub fn to_memory(word: u16) -> u32
    ensures { result ≡ to_memory word }
{
    (word as u32) / 4096 * 4096
}

// What the 16 bits behind EXTENDED come to: bits 13 and 14 become 29 and 30 of the record's flags; none where another is set, which has no meaning.
#[tactic(auto, unfolding(crate::specs::Flags::extended_to_memory))]
pub fn extended_to_memory(word: u16) -> Option<u32>
    ensures { result ≡ extended_to_memory word }
{
    if 32767 < word || word % 8192 != 0 {
        return None;
    }
    Some((word as u32) * 65536)
}

// The file's 16 bits from a record's flags, with no path length.
pub fn to_storage(flags: u32) -> u16
    ensures { result ≡ to_storage flags }
{
    (flags / 4096 % 16 * 4096) as u16
}

// The 16 bits that follow under EXTENDED.
pub fn extended_to_storage(flags: u32) -> u16
    ensures { result ≡ extended_to_storage flags }
{
    (flags / 536870912 % 4 * 8192) as u16
}
