ghost use Rattle.std.specs.Prelude.{◌≡◌, ◌/◌, ◌<◌, ◌==◌, IfSome, option_map, position};
ghost use Rattle.bb_flash.specs.Geometry.{IsGeometry, IsMultiple, geometry_from, blocks_from};
ghost use Rattle.bb_flash.specs.Geometry.{multiple_of, in_place_of, first_part, other_parts};
ghost use Rattle.bb_flash.specs.Geometry.{size_limit};

use bb_base::read_number;

/// How a device is laid out. The sizes are in bytes.
#[derive(Clone, Copy, Debug, PartialEq, Eq)]
pub struct Geometry {
    /// What is programmed at once. 1 on a device that is overwritten in place.
    pub page: u32,
    /// What is erased at once. 0 on a device that is overwritten in place.
    pub block: u32,
    /// The whole device.
    pub size: u32,
}

impl Geometry {
    // How many blocks the device has: none where it is overwritten in place.
    pub(crate) fn blocks(self) -> u32
        ensures { result ≡ self.size / self.block }
    {
        self.size.checked_div(self.block).unwrap_or(0)
    }
}

const MOST_SIZE: u32 = 268_435_456;

const MOST_BLOCK: u32 = 4_194_304;

const MOST_PAGE: u32 = 16_384;

const LEAST_PAGE: u32 = 16;

/// The geometry that a word spells, `None` exactly for every other word.
/// `ov:SIZE` is a device that is overwritten in place, with SIZE from 1 to 268,435,456: its page is
/// 1, its block 0. `er:PAGE:BLOCK:SIZE` is one that is erased in blocks, with PAGE from 16 to
/// 16,384, BLOCK a positive multiple of PAGE up to 4,194,304, and SIZE a positive multiple of BLOCK
/// up to 268,435,456. The numbers are spelt as `read_number` reads them.
pub fn geometry_of(word: &str) -> Option<Geometry>
    ensures value { result ≡ geometry_from word.now }
    ensures bounds { IfSome result IsGeometry }
{
    match word.as_bytes() {
        [b'o', b'v', b':', size @ ..] => in_place(size),
        [b'e', b'r', b':', parts @ ..] => in_blocks(parts),
        _ => None,
    }
}

fn in_place(size: &[u8]) -> Option<Geometry>
    ensures value { result ≡ option_map in_place_of (multiple_of 1 1 size_limit size.now) }
    ensures bounds { IfSome result IsGeometry }
{
    let size = multiple(1, 1, MOST_SIZE, size)?;
    Some(Geometry {
        page: 1,
        block: 0,
        size,
    })
}

fn in_blocks(parts: &[u8]) -> Option<Geometry>
    ensures value { result ≡ blocks_from parts.now }
    ensures bounds { IfSome result IsGeometry }
{
    let (page, rest) = split_at_colon(parts);
    let (block, size) = split_at_colon(rest);
    let page = multiple(1, LEAST_PAGE, MOST_PAGE, page)?;
    let block = multiple(page, 1, MOST_BLOCK, block)?;
    let size = multiple(block, 1, MOST_SIZE, size)?;
    Some(Geometry { page, block, size })
}

#[tactic(auto, using(crate::proofs::Colons::at_colon, crate::proofs::Colons::no_colon))]
// What stands before the first colon and after it.
fn split_at_colon(text: &[u8]) -> (&[u8], &[u8])
    ensures before { result.0.now ≡ first_part text.now }
    ensures after { result.1.now ≡ other_parts text.now }
{
    match colon(text) {
        Some(at) => (&text[..at], &text[at + 1..]),
        None => (text, &[]),
    }
}

fn colon(text: &[u8]) -> Option<usize>
    ensures { result ≡ position (λ c. c == 58) text.now }
{
    text.iter().position(|c| *c == b':')
}

// The number that a text spells, where it lies within the bounds and is a multiple of the unit.
fn multiple(unit: u32, least: u32, most: u32, text: &[u8]) -> Option<u32>
    requires { 0 < unit }
    ensures value { result ≡ multiple_of unit least most text.now }
    ensures bounds { IfSome result (IsMultiple unit least most) }
{
    let number = read_number(text).ok()?;
    let fits = least <= number && number <= most && number % unit == 0;
    fits.then_some(number)
}
