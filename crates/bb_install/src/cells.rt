ghost use Rattle.std.specs.Prelude.{◌≡◌};
ghost use Rattle.std.specs.Option.{option_copied};
ghost use Rattle.bb_layout.specs.Backend.{region_in};
ghost use Rattle.bb_layout.specs.Fields as field;

use bb_flash::Region;

/// The region of a value of two cells, an offset and a size, or of four cells, of which the first
/// and the third are 0 (Devicetree Specification v0.4, section 2.3.6).
pub(crate) fn region_in(value: &[u8]) -> Option<Region>
    ensures { result ≡ region_in value.now }
{
    if let Some((at, size)) = two_cells(value) {
        return Some(Region { at, size });
    }
    match four_cells(value)? {
        ((0, at), (0, size)) => Some(Region { at, size }),
        _ => None,
    }
}

/// A value that is a string: bytes without zero, and then a zero byte, which is left out.
pub(crate) fn string(value: &[u8]) -> Option<&[u8]>
    ensures { option_copied result ≡ field.string_of value.now }
{
    let front = front(value)?;
    if front.contains(&0) {
        return None;
    }
    Some(front)
}

// What stands before the zero byte that ends a value.
fn front(value: &[u8]) -> Option<&[u8]>
    ensures { option_copied result ≡ field.before_zero_byte value.now }
{
    let (last, front) = value.split_last()?;
    if *last != 0 {
        return None;
    }
    Some(front)
}

// A value of one cell: 4 bytes, big endian.
fn cell(value: &[u8]) -> Option<u32>
    ensures { result ≡ field.cell_of value.now }
{
    let [a, b, c, d] = value else {
        return None;
    };
    Some(u32::from_be_bytes([*a, *b, *c, *d]))
}

fn two_cells(value: &[u8]) -> Option<(u32, u32)>
    ensures { result ≡ field.two_cells_of value.now }
{
    if value.len() != 8 {
        return None;
    }
    Some((cell(&value[..4])?, cell(&value[4..])?))
}

fn four_cells(value: &[u8]) -> Option<((u32, u32), (u32, u32))>
    ensures { result ≡ field.four_cells_of value.now }
{
    if value.len() != 16 {
        return None;
    }
    Some((two_cells(&value[..8])?, two_cells(&value[8..])?))
}
