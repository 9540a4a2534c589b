// The whole index file, read into lent stores: header, trailer, entries, extensions, and the last TREE.

#![tactic(auto)]

ghost use Rattle.std.specs.Prelude.{◌≡◌, ◌≤◌, length};
ghost use Rattle.wire.specs.declared.FileAt.{FileAt};
ghost use Rattle.format.specs.Format.{depth_limit, id_size};
ghost use Rattle.kind.specs.Sha1.{sha1_kind};
ghost use Rattle.file.specs.Trailer.{good_trailer};
ghost use Rattle.file.specs.Answer.{number_of, carries_of, value_of, value_carried, of_header, of_entries, of_space, of_tree};
ghost use Rattle.file.specs.Read.{outcome, marked, with_tree, extensions_into, entries_into, read_file};

use decode::entries::Before;
use decode::header::Header;
use decode::{entries, header};
use extension::decode::Filled;
use wire::{FileAt, PathAt};

// What was read of a file: its version, whether it is sparse, how many records and path bytes it has, and how many nodes the last TREE has, if there is a tree.
// The version is a number, as C is told it.
#[derive(Clone, Copy)]
pub struct Reading {
    pub version: u32,
    pub sparse: bool,
    pub records: usize,
    pub path_bytes: usize,
    pub tree: Option<usize>,
}

// The refusals of 01's table, with the value that each carries.
#[derive(Clone, Copy)]
pub enum Error {
    ShortFile,
    NoSignature,
    OtherVersion(u32),
    BadTrailer,
    NotSpelled(usize),
    NoEntryRoom(usize),
    NotFilled(usize),
    Mandatory(u32),
    TooDeep,
    NoNodeRoom,
}

impl From<header::Error> for Error {
    ghost from_gives = { λ e x. x ≡ of_header e };

    fn from(e: header::Error) -> Error {
        match e {
            header::Error::ShortFile => Error::ShortFile,
            header::Error::NoSignature => Error::NoSignature,
            header::Error::OtherVersion(version) => Error::OtherVersion(version),
        }
    }
}

impl From<entries::Error> for Error {
    ghost from_gives = { λ e x. x ≡ of_entries e };

    fn from(e: entries::Error) -> Error {
        match e {
            entries::Error::NotSpelled(k) => Error::NotSpelled(k),
            entries::Error::NoRoom(k) => Error::NoEntryRoom(k),
        }
    }
}

impl From<extension::decode::Error> for Error {
    ghost from_gives = { λ e x. x ≡ of_space e };

    fn from(e: extension::decode::Error) -> Error {
        match e {
            extension::decode::Error::NotFilled(place) => Error::NotFilled(place.0),
            extension::decode::Error::Mandatory(signature) => Error::Mandatory(signature),
        }
    }
}

impl From<tree::Error> for Error {
    ghost from_gives = { λ e x. x ≡ of_tree e };

    fn from(e: tree::Error) -> Error {
        match e {
            tree::Error::TooDeep => Error::TooDeep,
            tree::Error::NoRoom => Error::NoNodeRoom,
        }
    }
}

// The number that 01's table gives an answer; 0 where the file was read.
pub fn number(a: Result<Reading, Error>) -> u32
    ensures { result ≡ number_of a }
{
    match a {
        Ok(_) => 0,
        Err(Error::ShortFile) => refusal::SHORT_FILE,
        Err(Error::NoSignature) => refusal::NO_SIGNATURE,
        Err(Error::OtherVersion(_)) => refusal::OTHER_VERSION,
        Err(Error::BadTrailer) => refusal::BAD_TRAILER,
        Err(Error::NotSpelled(_)) => refusal::NOT_SPELLED,
        Err(Error::NoEntryRoom(_)) => refusal::NO_ENTRY_ROOM,
        Err(Error::NotFilled(_)) => refusal::NOT_FILLED,
        Err(Error::Mandatory(_)) => refusal::MANDATORY,
        Err(Error::TooDeep) => refusal::TOO_DEEP,
        Err(Error::NoNodeRoom) => refusal::NO_NODE_ROOM,
    }
}

// Whether an answer carries a value with its number: whether `carried` has one. The theorem `carries_settled` speaks of it.
pub fn carries(a: Result<Reading, Error>) -> bool
    ensures { result ≡ carries_of a }
{
    matches!(
        a,
        Err(
            Error::OtherVersion(_)
                | Error::NotSpelled(_)
                | Error::NoEntryRoom(_)
                | Error::NotFilled(_)
                | Error::Mandatory(_)
        )
    )
}

// The value of a refusal that carries one; 0 elsewhere.
fn value(a: Result<Reading, Error>) -> u64
    ensures { result ≡ value_of a }
{
    match a {
        Err(Error::OtherVersion(v)) => v as u64,
        Err(Error::NotSpelled(k)) => k as u64,
        Err(Error::NoEntryRoom(k)) => k as u64,
        Err(Error::NotFilled(p)) => p as u64,
        Err(Error::Mandatory(s)) => s as u64,
        Err(
            Error::ShortFile
            | Error::NoSignature
            | Error::BadTrailer
            | Error::TooDeep
            | Error::NoNodeRoom,
        )
        | Ok(_) => 0,
    }
}

// The value that an answer carries with its number, if it carries one.
pub fn carried(a: Result<Reading, Error>) -> Option<u64>
    ensures { result ≡ value_carried a }
{
    carries(a).then_some(value(a))
}

// Whether the trailer is zeros or the SHA-1 of all before it. Zeros are seen first, so that such a file is not hashed.
fn good_trailer(file: &[u8]) -> bool
    requires { id_size ≤ length file.now }
    ensures { result ≡ good_trailer sha1_kind file.now }
{
    let n = file.len() - format::ID_SIZE;
    let zeros = [0u8; format::ID_SIZE];
    if slices::same(file, n, &zeros, 0, format::ID_SIZE) {
        return true;
    }
    let digest = sha1_hash::sha1_of(&file[..n]);
    slices::same(file, n, &digest, 0, format::ID_SIZE)
}

// What was read of header and entries, before the extensions.
#[derive(Drop)]
pub struct Entries {
    pub version: u32,
    pub sparse: bool,
    pub records: usize,
    pub used: usize,
}

// What was read, with the mark that `sdir` gives.
fn marked_by(e: Entries, mark: bool) -> Entries
    ensures { result ≡ marked e mark }
{
    if mark {
        return Entries { sparse: true, ..e };
    }
    e
}

// The answer, by what the last TREE came to; where there is none it is as with a malformed one.
fn with_tree(e: Entries, t: Result<Option<usize>, tree::Error>) -> Result<Reading, Error>
    ensures { result ≡ with_tree e t }
{
    let tree = t?;
    Ok(Reading {
        version: e.version,
        sparse: e.sparse,
        records: e.records,
        path_bytes: e.used,
        tree,
    })
}

// The extensions from `next` on, which fill the space before `end`, and the last TREE's nodes.
#[tactic(auto, unfolding(crate::specs::Read::extensions_into))]
fn read_extensions(
    file: &[u8],
    next: FileAt,
    end: FileAt,
    e: Entries,
    nodes: &mut [u8],
) -> Result<Reading, Error>
    ensures { (result, nodes.new) ≡ extensions_into id_size depth_limit file.now next.0 end.0 e nodes.old }
{
    let Filled { sparse, bodies } = extension::decode::all(file, next, end)?;
    let all = marked_by(e, sparse);
    match bodies.tree {
        None => with_tree(all, Ok(None)),
        Some(body) => with_tree(all, tree::read_tree(file, body.start.0, body.stop.0, nodes)),
    }
}

// The entries behind the header, and all that follows them.
#[tactic(auto, unfolding(crate::specs::Read::entries_into))]
fn read_entries(
    file: &[u8],
    version: u32,
    count: usize,
    records: &mut [u8],
    paths: &mut [u8],
    nodes: &mut [u8],
) -> Result<Reading, Error>
    requires { id_size ≤ length file.now }
    ensures { outcome result records.new paths.new nodes.new
        ≡ entries_into id_size depth_limit file.now version count records.old paths.old nodes.old }
{
    let end = FileAt(file.len() - format::ID_SIZE);
    let from = FileAt(format::HEADER_SIZE);
    let before = Before {
        used: PathAt(0),
        path: None,
    };
    let run = entries::read_entries(file, from, end, version, count, 0, before, records, paths)?;
    let e = Entries {
        version,
        sparse: run.sparse,
        records: count,
        used: run.used.0,
    };
    read_extensions(file, run.next, end, e, nodes)
}

// Reads an index file into three lent stores: records, their paths one behind the other, and the nodes of the last TREE. Refusals 1 to 4 touch nothing; 5 and 6 leave
// the entries before the one they name; 7 and 8 leave all entries; 9 and 10 leave all entries and a node store of zeros.
#[tactic(auto, using(crate::proofs::Laws::long_enough), unfolding(crate::specs::Read::read_file))]
pub fn read(
    file: &[u8],
    records: &mut [u8],
    paths: &mut [u8],
    nodes: &mut [u8],
) -> Result<Reading, Error>
    ensures { outcome result records.new paths.new nodes.new
        ≡ read_file sha1_kind depth_limit file.now records.old paths.old nodes.old }
{
    let Header { version, entries } = header::decode(file)?;
    if !good_trailer(file) {
        return Err(Error::BadTrailer);
    }
    read_entries(file, version, entries as usize, records, paths, nodes)
}
