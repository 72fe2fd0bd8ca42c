ghost use Rattle.std.specs.Prelude.{◌≡◌, IfOk, map};
ghost use Rattle.std.specs.List.{join_with_byte};

use bb_base::{NoMemory, Text, TextList};
use std::alloc::Global;

/// A copy of each value.
pub(crate) fn copy_values(alloc: Global, values: &[&str]) -> Result<TextList, NoMemory>
    ensures { IfOk result (λ copies. copies ≡ map (λ v. v.now) values.now) }
{
    let mut copies = TextList::none(alloc);
    for i in 0..values.len() {
        copies.push(Text::of(alloc, values[i])?)?;
    }
    Ok(copies)
}

/// The values, with one space between each two.
pub(crate) fn join_values(alloc: Global, values: &[&str]) -> Result<Text, NoMemory>
    ensures { IfOk result (λ text. text ≡ join_with_byte 32 (map (λ v. v.now) values.now)) }
{
    let mut joined = String::new(alloc);
    for i in 0..values.len() {
        if i > 0 {
            joined.push(' ')?;
        }
        joined.push_str(values[i])?;
    }
    Text::of(alloc, joined.as_str())
}
