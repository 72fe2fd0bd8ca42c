ghost use Rattle.std.specs.Prelude.{◌≤◌, ◌+◌, IfSome};

use crate::bucket::pages::{Page, Pages, put, torn_page};
use bb_bucket::Found;
use bb_flash::Fill;

// Here an entry of two pages has a record of 24 bytes, the last of its pages is the one of another
// health, and an entry of one page has a record of 8 bytes.
pub(super) const RECORD: [u8; 8] = *b"a record";

fn bytes_of(page: Page) -> [u8; 16] {
    match page {
        Page::Blank => [0xFF; 16],
        Page::First => *b"an older record ",
        Page::Last | Page::Lost | Page::Worn => *b"is here.\x02\x2d\xfa\x14\x20\x00\x00\x00",
        Page::Junk => [0xA5; 16],
        Page::Half => *b"a record\xff\xff\xff\xff\xff\xff\xff\xff",
        Page::New => *b"a record\x02\x2d\xfa\x14\x10\x00\x00\x00",
    }
}

// The device's bytes: all else is blank.
pub(super) fn image_of(pages: Pages) -> [u8; 192] {
    let mut bytes = [0xFF; 192];
    for place in 0..4 {
        put(&mut bytes, place, bytes_of(pages[place]));
    }
    bytes
}

// How many pages there are up to the last one that isn't blank.
pub(super) fn written_pages(pages: Pages) -> usize
    ensures { result ≤ 4 }
{
    if pages[3] != Page::Blank {
        4
    } else if pages[2] != Page::Blank {
        3
    } else if pages[1] != Page::Blank {
        2
    } else if pages[0] != Page::Blank {
        1
    } else {
        0
    }
}

// The entry that stands there: its first page, and how many it has.
#[derive(Clone, Copy)]
struct Entry {
    first: usize,
    pages: usize,
}

fn candidate(pages: Pages) -> Option<Entry>
    ensures inside { IfSome result (λ c. c.first + c.pages ≤ 4) }
    ensures some { IfSome result (λ c. 1 ≤ c.pages) }
{
    let end = written_pages(pages);
    if end == 0 {
        return None;
    }
    let last = pages[end - 1];
    if last == Page::New {
        return Some(Entry {
            first: end - 1,
            pages: 1,
        });
    }
    let closed = last == Page::Last || last == Page::Worn;
    if closed && end >= 2 && pages[end - 2] != Page::Lost {
        return Some(Entry {
            first: end - 2,
            pages: 2,
        });
    }
    None
}

// What a read finds.
pub(super) fn found_in(pages: Pages) -> Found
    ensures { IfSome result.len (λ len. len ≤ 56) }
{
    match candidate(pages) {
        Some(entry) => Found {
            len: Some(entry.pages as u32 * 16 - 8),
            worn: pages[entry.first..entry.first + entry.pages].contains(&Page::Worn),
        },
        None => Found {
            len: None,
            worn: false,
        },
    }
}

// Whether the record that stands there, if there is one, is at the front of these bytes.
pub(super) fn is_record(out: &[u8; 56], pages: Pages) -> bool {
    let Some(entry) = candidate(pages) else {
        return true;
    };
    let first = 64 + 16 * entry.first;
    let len = entry.pages * 16 - 8;
    out[..len] == image_of(pages)[first..first + len]
}

// What a finished write leaves.
pub(super) fn after_write(pages: Pages) -> Pages {
    let end = written_pages(pages);
    let mut after = if end < 4 { pages } else { [Page::Blank; 4] };
    after[if end < 4 { end } else { 0 }] = Page::New;
    after
}

// What a call leaves that was to program the new entry after these pages.
pub(super) fn torn_program(pages: Pages, fill: Fill) -> Pages {
    let end = written_pages(pages);
    let mut after = pages;
    if end < 4 {
        after[end] = torn_page(fill);
    }
    after
}

// How many pages a look from the end reads.
pub(super) fn looked_at(pages: Pages) -> u32
    ensures { result ≤ 4 }
{
    match written_pages(pages) {
        0 => 4,
        pages => 5 - pages as u32,
    }
}
