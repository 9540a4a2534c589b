// The front of an index read: the header, how many entries the file has room for, and the entries into lent stores.

#![tactic(auto)]

pub mod entries;
pub mod header;
