ghost use Rattle.std.specs.Prelude.{◌≤◌, IfSome};

use crate::bucket::pages::{Page, Pages, put, torn_page};
use bb_bucket::Found;
use bb_flash::Fill;

// Here an entry of two pages has a record of 16 bytes, the first of its pages is the one of another
// health, and an entry of one page has a record of 4 bytes. What a cut in the middle leaves of that
// is its front alone.
pub(super) const RECORD: [u8; 4] = *b"new.";

fn bytes_of(page: Page) -> [u8; 16] {
    match page {
        Page::Blank => [0xFF; 16],
        Page::First | Page::Lost | Page::Worn => *b"\xf3\xfd\x54\x23\x10\x00\x00\x00an older",
        Page::Last => *b" record.\xff\xff\xff\xff\xff\xff\xff\xff",
        Page::Junk => [0xA5; 16],
        Page::Half => *b"\xf3\xfd\x54\x23\x04\x00\x00\x00\xff\xff\xff\xff\xff\xff\xff\xff",
        Page::New => *b"\xf3\xfd\x54\x23\x04\x00\x00\x00new.\xff\xff\xff\xff",
    }
}

// The device's bytes: all else is blank.
pub(super) fn image_of(pages: Pages) -> [u8; 192] {
    let mut bytes = [0xFF; 192];
    for place in 0..4 {
        put(&mut bytes, place, bytes_of(pages[place]));
    }
    bytes
}

// How many bytes stand as a record after the front, if there is one.
fn candidate(pages: Pages) -> Option<usize>
    ensures { IfSome result (λ len. len ≤ 16) }
{
    match pages[0] {
        Page::First | Page::Worn if pages[1] != Page::Lost => Some(16),
        Page::New | Page::Half => Some(4),
        _ => None,
    }
}

pub(super) fn found_in(pages: Pages) -> Found {
    let len = candidate(pages);
    let first = pages[0] == Page::Worn;
    let second = len == Some(16) && pages[1] == Page::Worn;
    Found {
        len: len.map(|len| len as u32),
        worn: len.is_some() && (first || second),
    }
}

// Whether the record that stands there, if there is one, is at the front of these bytes.
pub(super) fn is_record(out: &[u8; 56], pages: Pages) -> bool {
    let Some(len) = candidate(pages) else {
        return true;
    };
    out[..len] == image_of(pages)[72..72 + len]
}

// What a finished write leaves.
pub(super) fn after_write() -> Pages {
    [Page::New, Page::Blank, Page::Blank, Page::Blank]
}

// What a call leaves that was to program the new entry.
pub(super) fn torn_program(fill: Fill) -> Pages {
    [torn_page(fill), Page::Blank, Page::Blank, Page::Blank]
}
