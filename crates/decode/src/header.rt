// The header: "DIRC", the version, and how many entries follow.
ghost use Rattle.std.specs.Prelude.{◌≡◌};
ghost use Rattle.format.specs.Format.{id_size};
ghost use Rattle.decode.specs.Header.{header_at};

// The header and a trailer of 20 bytes: no index is shorter.
const LEAST: usize = 32;

// "DIRC" as one big-endian number.
const SIGNATURE: u32 = 1145655875;

// What a header says. The version is a number, as C is told it and gives it.
#[derive(Clone, Copy)]
pub struct Header {
    pub version: u32,
    pub entries: u32,
}

// Which refusal it meets.
#[derive(Clone, Copy)]
pub enum Error {
    ShortFile,
    NoSignature,
    OtherVersion(u32),
}

// Reads the header; the three refusals are tried in 01's order.
#[tactic(auto, unfolding(crate::specs::Header::header_at, crate::specs::Header::on_version))]
pub fn decode(file: &[u8]) -> Result<Header, Error>
    ensures { result ≡ header_at id_size file.now }
{
    if file.len() < LEAST {
        return Err(Error::ShortFile);
    }
    let signature = wire::be32(file, 0);
    if signature != SIGNATURE {
        return Err(Error::NoSignature);
    }
    let version = wire::be32(file, 4);
    let entries = wire::be32(file, 8);
    match version {
        2..=4 => Ok(Header { version, entries }),
        _ => Err(Error::OtherVersion(version)),
    }
}
