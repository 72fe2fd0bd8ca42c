ghost use Rattle.std.specs.Prelude.{◌<◌};

use bb_flash::Fill;

// What a page of the block holds: the pages of an entry of two; the one of these that decides, in
// another health; a page of junk; what a cut in the middle leaves of an entry of one page, and that
// entry.
#[derive(Clone, Copy, Debug, PartialEq, Eq)]
pub(super) enum Page {
    Blank,
    First,
    Last,
    Junk,
    Lost,
    Worn,
    Half,
    New,
}

pub(super) type Pages = [Page; 4];

// The content of a number, counted in sixes.
pub(super) fn pages_of(number: u32) -> Pages {
    [
        page_of(number % 6),
        page_of(number / 6 % 6),
        page_of(number / 36 % 6),
        page_of(number / 216 % 6),
    ]
}

fn page_of(kind: u32) -> Page {
    match kind {
        0 => Page::Blank,
        1 => Page::First,
        2 => Page::Last,
        3 => Page::Junk,
        4 => Page::Lost,
        _ => Page::Worn,
    }
}

// Puts a page of the block into the device's bytes.
pub(super) fn put(bytes: &mut [u8; 192], place: usize, page: [u8; 16])
    requires { place < 4 }
{
    let first = 64 + 16 * place;
    bytes[first..first + 16].copy_from_slice(&page);
}

// What a call leaves that was to erase the block. `whole` is the page that Lost and Worn ones hold.
pub(super) fn torn_erase(pages: Pages, fill: Fill, whole: Page) -> Pages {
    match fill {
        Fill::Old => pages,
        Fill::Half => [
            Page::Blank,
            Page::Blank,
            mended_page(pages[2], whole),
            mended_page(pages[3], whole),
        ],
        Fill::Junk => [Page::Junk; 4],
        Fill::Lost => [Page::Lost; 4],
    }
}

fn mended_page(page: Page, whole: Page) -> Page {
    match page {
        Page::Lost | Page::Worn => whole,
        page => page,
    }
}

// What a call leaves of a new entry's page.
pub(super) fn torn_page(fill: Fill) -> Page {
    match fill {
        Fill::Old => Page::Blank,
        Fill::Half => Page::Half,
        Fill::Junk => Page::Junk,
        Fill::Lost => Page::Lost,
    }
}
