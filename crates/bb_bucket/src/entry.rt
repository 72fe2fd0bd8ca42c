ghost use Rattle.std.specs.Prelude.{◌≡◌, ◌≤◌, ◌<◌, ◌+◌, ◌%◌, ◌^◌, Some, None, length};
ghost use Rattle.std.specs.Prelude.{if◌then◌else◌};
ghost use Rattle.bb_bucket.specs.Blocks.{filled_len, filled_to};
ghost use Rattle.bb_bucket.specs.Front.{with_header, stride_header_len, has_front, header_len_of};

use byteorder::{ByteOrder, LittleEndian};

/// In bytes: the words in front of a record, the magic one and the record's length (barebox User
/// Manual, State Framework, the backend storage type `direct`).
pub const FRONT_LEN: u32 = 8;

const FRONT_MAGIC: u32 = 0x2354_fdf3;

/// The length that the front gives, where it is a front and a region of `size` bytes holds so much.
pub(crate) fn record_len(size: u32, front: &[u8]) -> Option<u32>
    requires some { stride_header_len ≤ size }
    requires whole { length front.now ≡ stride_header_len }
    ensures { result
        ≡ (if has_front size front.now then Some (header_len_of front.now) else None) }
{
    let len = LittleEndian::read_u32(&front[4..]);
    let is_front = LittleEndian::read_u32(front) == FRONT_MAGIC && len <= size - FRONT_LEN;
    is_front.then_some(len)
}

/// Writes a record with its front into `out`, which has room for exactly these.
pub(crate) fn write_entry(rec: &[u8], out: &mut [u8])
    requires small { length rec.now < 2 ^ 32 }
    requires room { length out.old ≡ stride_header_len + length rec.now }
    ensures { out.new ≡ with_header rec.now }
{
    LittleEndian::write_u32(out, FRONT_MAGIC);
    LittleEndian::write_u32(&mut out[4..], rec.len() as u32);
    out[FRONT_LEN as usize..].copy_from_slice(rec);
}

/// Writes a record with its front into `out`, and fills it with 0xFF.
pub(crate) fn write_filled_entry(rec: &[u8], out: &mut [u8])
    requires small { length rec.now < 2 ^ 32 }
    requires room { stride_header_len + length rec.now ≤ length out.old }
    ensures { out.new ≡ filled_to (length out.old) (with_header rec.now) }
{
    let (entry, filling) = out.split_at_mut(FRONT_LEN as usize + rec.len());
    write_entry(rec, entry);
    filling.fill(0xFF);
}

/// The least number of bytes that holds `len` ones in whole pages.
pub fn whole_pages(page: u32, len: u32) -> u32
    requires some { 0 < page }
    requires small { filled_len page len < 2 ^ 32 }
    ensures value { result ≡ filled_len page len }
    ensures least { len ≤ result }
    ensures pages { result % page ≡ 0 }
{
    len.div_ceil(page) * page
}
