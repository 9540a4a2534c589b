// Numbers of the index format that more than one crate names: each is one constant here and one in specs/Format.antt, and every contract that meets them ties the two.

#![tactic(auto)]

// The bytes of an id, and so of the trailer.
pub const ID_SIZE: usize = 20;

// Signature, version and count.
pub const HEADER_SIZE: usize = 12;

// An entry's part before its path, without and with extended flags; the flags stand in its last two bytes, or before them.
pub const FIXED_SIZE: usize = FLAGS_AT + 2;

pub const FIXED_EXTENDED_SIZE: usize = FLAGS_AT + 4;

pub const FLAGS_AT: usize = 40 + ID_SIZE;

// A length field of this value says that the path runs to the first NUL.
pub const LONG_PATH: usize = 4095;

// An extension's signature and size.
pub const EXTENSION_HEADER_SIZE: usize = 8;

// EOIE's offset; its body, which is that and a hash; and the whole of it.
pub const OFFSET_SIZE: usize = 4;

pub const EOIE_SIZE: usize = OFFSET_SIZE + ID_SIZE;

pub const EOIE_WHOLE_SIZE: usize = EXTENSION_HEADER_SIZE + EOIE_SIZE;

// The deepest level of a tree; the root's is 1.
pub const DEPTH_LIMIT: usize = 512;
