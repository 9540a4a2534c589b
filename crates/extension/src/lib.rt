// The extensions of an index: 4 signature bytes, a big-endian 32-bit size, and that many bytes, one behind the other. `iter` walks them, `decode` reads the
// whole space behind the entries, and the two others read the extensions that speed up reading.

#![tactic(auto)]

pub mod decode;
pub mod end_of_index_entry;
pub mod index_entry_offset_table;
pub mod iter;

// The signatures that are looked at, each as one big-endian number.
pub const TREE: u32 = 0x5452_4545;

pub const SDIR: u32 = 0x7364_6972;

pub const IEOT: u32 = 0x4945_4f54;

pub const EOIE: u32 = 0x454f_4945;

// A signature divided by this is its first byte.
pub const FIRST_BYTE: u32 = 0x100_0000;
