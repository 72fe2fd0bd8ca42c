ghost use Rattle.std.specs.Prelude.{◌≡◌, ◌≤◌, ◌+◌, Ok, length};
ghost use Rattle.bb_fdt.specs.Header.{header_of, header_fields, header_or_fault, is_outside};
ghost use Rattle.bb_fdt.specs.Header.{header_word_at};

use crate::{FdtError, Field};
use byteorder::{BigEndian, ByteOrder};

const HEADER_LEN: usize = 40;

const MAGIC: u32 = 0xD00D_FEED;
/// The version that is read.
const VERSION: u32 = 17;

/// What a blob's header says. Places and lengths are in bytes, and places are counted from the
/// blob's beginning.
#[derive(Clone, Copy, Debug)]
pub(crate) struct Header {
    pub total: u32,
    pub struct_at: u32,
    pub strings_at: u32,
    pub reserve_at: u32,
    pub version: u32,
    pub last_version: u32,
    pub strings_len: u32,
    pub struct_len: u32,
}

/// The header that the bytes begin with, or the first of its faults.
pub(crate) fn read_header(bytes: &[u8]) -> Result<Header, FdtError>
    ensures { result ≡ header_of bytes.now }
{
    if bytes.len() < HEADER_LEN || word_at(bytes, 0) != MAGIC {
        return Err(FdtError::NotBlob);
    }
    header_or_fault(bytes.len(), header_fields(bytes))
}

fn header_fields(bytes: &[u8]) -> Header
    requires { 40 ≤ length bytes.now }
    ensures { result ≡ header_fields bytes.now }
{
    Header {
        total: word_at(bytes, 4),
        struct_at: word_at(bytes, 8),
        strings_at: word_at(bytes, 12),
        reserve_at: word_at(bytes, 16),
        version: word_at(bytes, 20),
        last_version: word_at(bytes, 24),
        strings_len: word_at(bytes, 32),
        struct_len: word_at(bytes, 36),
    }
}

// The header, where its parts are in bounds.
fn header_or_fault(len: usize, header: Header) -> Result<Header, FdtError>
    ensures { result ≡ header_or_fault len header }
{
    if header.version < VERSION || VERSION < header.last_version {
        return Err(FdtError::Version);
    }
    if (header.total as usize) < HEADER_LEN || len < header.total as usize {
        return Err(FdtError::OutOfBounds(Field::Total));
    }
    if header.struct_at % 4 != 0 || is_outside(header.total, header.struct_at, header.struct_len) {
        return Err(FdtError::OutOfBounds(Field::Struct));
    }
    if is_outside(header.total, header.strings_at, header.strings_len) {
        return Err(FdtError::OutOfBounds(Field::Strings));
    }
    if header.reserve_at % 8 != 0 {
        return Err(FdtError::OutOfBounds(Field::Reserve));
    }
    Ok(header)
}

fn is_outside(total: u32, at: u32, len: u32) -> bool
    ensures { result ≡ is_outside total at len }
{
    u64::from(total) < u64::from(at) + u64::from(len)
}

/// The big-endian word at a place.
#[tactic(auto, unfolding(crate::specs::Header::header_word_at))]
pub(crate) fn word_at(bytes: &[u8], at: usize) -> u32
    requires { at + 4 ≤ length bytes.now }
    ensures { result ≡ header_word_at at bytes.now }
{
    BigEndian::read_u32(&bytes[at..])
}
