// The numbers of 01's table "When the desk says no": each refusal is one constant here and one in specs/Refusal.antt, and the contract of every function that returns
// the one cites the other, by the `number_of` of its answer. They are numbers, since C is told them; in Rattle the refusals of each crate are an error enum.

#![tactic(auto)]

pub const SHORT_FILE: u32 = 1;

pub const NO_SIGNATURE: u32 = 2;

pub const OTHER_VERSION: u32 = 3;

pub const BAD_TRAILER: u32 = 4;

pub const NOT_SPELLED: u32 = 5;

pub const NO_ENTRY_ROOM: u32 = 6;

pub const NOT_FILLED: u32 = 7;

pub const MANDATORY: u32 = 8;

pub const TOO_DEEP: u32 = 9;

pub const NO_NODE_ROOM: u32 = 10;

pub const NO_STAGE: u32 = 11;

pub const PATH_OUTSIDE: u32 = 12;

pub const NOT_AFTER: u32 = 13;

pub const SHORT_OUTPUT: u32 = 14;

pub const TOO_LARGE: u32 = 15;

pub const NOT_PROPER: u32 = 16;
