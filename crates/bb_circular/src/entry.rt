ghost use Rattle.std.specs.Prelude.{◌≡◌, ◌≤◌, ◌<◌, ◌+◌, ◌-◌, ◌*◌, ◌/◌, ◌%◌, ◌^◌, ◌++◌, ◌&&◌};
ghost use Rattle.std.specs.Prelude.{IfSome, length, nat_le, not, take};
ghost use Rattle.bb_bucket.specs.Blocks.{filled_to};
ghost use Rattle.bb_bucket.specs.Front.{is_lost};
ghost use Rattle.bb_circular.specs.Circular.{IsEntryIn};
ghost use Rattle.bb_circular.specs.Entries.{closed_entry, closes, closing_len, closing_words};
ghost use Rattle.bb_circular.specs.Entries.{entry_len, log_entry};

use crate::kept::Entry;
use crate::last_page::{LastPage, is_lost};
use bb_bucket::{Block, whole_pages};
use byteorder::{ByteOrder, LittleEndian};

/// In bytes: the words after a record, the magic one and the entry's whole length (this project's
/// profile).
pub const CLOSING_LEN: u32 = 8;

const CLOSING_MAGIC: u32 = 0x14fa_2d02;

/// The entry that the last page says it ends, if it isn't Lost and its last words are closing ones.
pub(crate) fn closed_entry(last: LastPage, page: &[u8], block: Block) -> Option<Entry>
    requires page { length page.now ≡ block.page }
    requires least { 16 ≤ block.page }
    requires pages { block.region.size % block.page ≡ 0 }
    requires inside { last.pages ≤ block.region.size / block.page }
    ensures value { result ≡ closed_entry block.page last.pages
        (record { bytes = page.now; health = last.health }) }
    ensures inside { IfSome result (IsEntryIn block) }
{
    let end = last.pages * block.page;
    let words = &page[(block.page - CLOSING_LEN) as usize..];
    if ends_entry(last, block.page, end, words) {
        let len = LittleEndian::read_u32(&words[4..]);
        Some(Entry { at: end - len, len })
    } else {
        None
    }
}

// Whether the last page ends an entry, whose closing words are these bytes.
fn ends_entry(last: LastPage, page: u32, end: u32, words: &[u8]) -> bool
    requires some { 0 < page }
    requires whole { length words.now ≡ closing_len }
    ensures { result ≡ (nat_le 1 last.pages
        && (not (is_lost last.health) && closes page end words.now)) }
{
    1 <= last.pages && !is_lost(last.health) && is_closing(page, end, words)
}

// Whether these bytes close an entry that ends at this place of its block.
fn is_closing(page: u32, end: u32, words: &[u8]) -> bool
    requires some { 0 < page }
    requires whole { length words.now ≡ closing_len }
    ensures { result ≡ closes page end words.now }
{
    let len = LittleEndian::read_u32(&words[4..]);
    LittleEndian::read_u32(words) == CLOSING_MAGIC && len % page == 0 && 1 <= len && len <= end
}

/// Writes the entry of a record to the front of `memory`. The answer is how many bytes it has.
pub(crate) fn pack_entry(block: Block, rec: &[u8], memory: &mut [u8]) -> u32
    requires least { 16 ≤ block.page }
    requires pages { block.region.size % block.page ≡ 0 }
    requires small { block.region.size + block.page < 2 ^ 32 }
    requires room { length rec.now + closing_len ≤ block.region.size }
    requires memory { length rec.now + closing_len ≤ length memory.old }
    requires whole { length memory.old % block.page ≡ 0 }
    ensures len { result ≡ entry_len block.page (length rec.now) }
    ensures inside { result ≤ block.region.size }
    ensures held { result ≤ length memory.old }
    ensures entry { take result memory.new ≡ log_entry block.page rec.now }
{
    let len = whole_pages(block.page, rec.len() as u32 + CLOSING_LEN);
    write_entry(rec, &mut memory[..len as usize]);
    len
}

// Writes a record, 0xFF and the closing words into `out`, which is as long as the entry.
fn write_entry(rec: &[u8], out: &mut [u8])
    requires small { length out.old < 2 ^ 32 }
    requires room { length rec.now + closing_len ≤ length out.old }
    ensures { out.new
        ≡ filled_to (length out.old - closing_len) rec.now ++ closing_words (length out.old) }
{
    let len = out.len();
    let (front, words) = out.split_at_mut(len - CLOSING_LEN as usize);
    write_filled(rec, front);
    LittleEndian::write_u32(words, CLOSING_MAGIC);
    LittleEndian::write_u32(&mut words[4..], len as u32);
}

fn write_filled(rec: &[u8], out: &mut [u8])
    requires { length rec.now ≤ length out.old }
    ensures { out.new ≡ filled_to (length out.old) rec.now }
{
    let (record, filling) = out.split_at_mut(rec.len());
    record.copy_from_slice(rec);
    filling.fill(0xFF);
}
