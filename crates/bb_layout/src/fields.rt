ghost use Rattle.std.specs.Prelude.{◌≡◌, Some, IfOk};
ghost use Rattle.std.specs.List.{list_all, list_any};
ghost use Rattle.std.specs.Option.{option_copied};
ghost use Rattle.std.specs.Str.{bytes_eq, is_utf8};
ghost use Rattle.bb_layout.specs.Fields as field;
ghost use Rattle.bb_layout.specs.Results.{option_filter};

use bb_base::{NoMemory, Text, TextList};
use std::alloc::Global;
use std::str;

/// A value of one cell: 4 bytes, big endian.
pub(crate) fn cell(value: &[u8]) -> Option<u32>
    ensures { result ≡ field.cell_of value.now }
{
    let [a, b, c, d] = value else {
        return None;
    };
    Some(u32::from_be_bytes([*a, *b, *c, *d]))
}

/// A value of one cell that is below a bound.
pub(crate) fn cell_below(value: &[u8], bound: usize) -> Option<u32>
    ensures { result ≡ field.cell_below bound value.now }
{
    let number = cell(value)?;
    if number as usize >= bound {
        return None;
    }
    Some(number)
}

/// A value of two cells.
pub(crate) fn two_cells(value: &[u8]) -> Option<(u32, u32)>
    ensures { result ≡ field.two_cells_of value.now }
{
    if value.len() != 8 {
        return None;
    }
    Some((cell(&value[..4])?, cell(&value[4..])?))
}

/// A value of four cells, as two pairs.
pub(crate) fn four_cells(value: &[u8]) -> Option<((u32, u32), (u32, u32))>
    ensures { result ≡ field.four_cells_of value.now }
{
    if value.len() != 16 {
        return None;
    }
    Some((two_cells(&value[..8])?, two_cells(&value[8..])?))
}

/// A value that is a string: bytes without zero, and then a zero byte, which is left out.
pub(crate) fn string(value: &[u8]) -> Option<&[u8]>
    ensures { option_copied result ≡ field.string_of value.now }
{
    let front = front(value)?;
    if front.contains(&0) {
        return None;
    }
    Some(front)
}

/// A value that is a string in UTF-8.
pub(crate) fn text(value: &[u8]) -> Option<&str>
    ensures { option_copied result ≡ field.utf8_string value.now }
{
    str::from_utf8(string(value)?).ok()
}

/// A value that is one or more strings in UTF-8.
pub(crate) fn strings(alloc: Global, value: &[u8]) -> Result<Option<TextList>, NoMemory>
    ensures { IfOk result (λ found. found ≡ field.utf8_strings value.now) }
{
    let Some(front) = front(value) else {
        return Ok(None);
    };
    texts(alloc, front)
}

// The texts between zero bytes, where all are UTF-8.
fn texts(alloc: Global, front: &[u8]) -> Result<Option<TextList>, NoMemory>
    ensures { IfOk result (λ found.
        found ≡ option_filter (list_all is_utf8) (Some (field.parts_of front.now))) }
{
    let mut texts = TextList::none(alloc);
    for part in front.split(|c| *c == 0) {
        let Ok(text) = str::from_utf8(part) else {
            return Ok(None);
        };
        texts.push(Text::of(alloc, text)?)?;
    }
    Ok(Some(texts))
}

/// Whether a value is one or more strings of which one is `name`.
pub(crate) fn has_string(value: &[u8], name: &str) -> bool
    ensures { result ≡ field.has_string value.now name.now }
{
    match front(value) {
        Some(front) => has_part(front, name),
        None => false,
    }
}

// Whether the name stands between zero bytes.
fn has_part(front: &[u8], name: &str) -> bool
    ensures { result ≡ list_any (λ s. bytes_eq s name.now) (field.parts_of front.now) }
{
    for part in front.split(|c| *c == 0) {
        if part == name.as_bytes() {
            return true;
        }
    }
    false
}

/// A node's name up to its `@`.
pub(crate) fn base_name(name: &str) -> &str
    ensures { result.now ≡ field.base_name name.now }
{
    match name.split_once('@') {
        Some((base, _)) => base,
        None => name,
    }
}

// What stands before the zero byte that ends a value.
fn front(value: &[u8]) -> Option<&[u8]>
    ensures { option_copied result ≡ field.before_zero_byte value.now }
{
    let (last, front) = value.split_last()?;
    if *last != 0 {
        return None;
    }
    Some(front)
}
