ghost use Rattle.std.specs.Prelude.{◌≡◌, ◌++◌, ◌≤◌, IfOk, IfSome, OnErr, OnOk, length};
ghost use Rattle.std.specs.Prelude.{option_map, option_to_list, take};
ghost use Rattle.std.specs.List.{flat_map};
ghost use Rattle.std.specs.Option.{option_map_or};
ghost use Rattle.bb_history.specs.History.{Adds};
ghost use Rattle.bb_history.specs.Lines.{count_line, entry_line};
ghost use Rattle.bb_history.specs.Reading.{FitsRoom, ended_text, entry_lines, passing_text};
ghost use Rattle.bb_history.specs.Reading.{shown_text};
ghost use Rattle.bb_layout.specs.Convert.{convert};
ghost use Rattle.bb_layout.specs.Layout.{fields_of};
ghost use Rattle.bb_state.specs.Lines.{dump_line};

use crate::entry::Ended;
use bb_base::{Bytes, NoMemory};
use bb_layout::Layout;
use bb_state::add_dump;
use std::alloc::Global;

/// Adds the line that says how many entries the copy of a number has. Without memory `out` is as
/// before.
pub(crate) fn add_count(
    alloc: Global,
    copy: usize,
    count: usize,
    out: &mut Bytes,
) -> Result<(), NoMemory>
    ensures added { OnOk result (out.new ≡ out.old ++ count_line copy count) }
    ensures unchanged { OnErr result (out.new ≡ out.old) }
{
    let line = format!(in alloc; "copy {copy} entries {count}\n")?;
    out.add(line.as_bytes())
}

// Adds the lines of the entry of a number: that number, and each variable of its area, of whatever
// length, as the layout reads it. Without memory `out` is as before.
fn add_entry(
    alloc: Global,
    layout: &Layout,
    number: usize,
    area: &[u8],
    out: &mut Bytes,
) -> Result<(), NoMemory>
    ensures added { OnOk result
        (out.new ≡ out.old ++ entry_lines (fields_of layout.now) number area.now) }
    ensures unchanged { OnErr result (out.new ≡ out.old) }
{
    let mut text = entry_line(alloc, number)?;
    add_converted(alloc, layout, area, &mut text)?;
    out.add(text.as_slice())
}

// Adds a line for each variable of an area, as the layout reads it.
fn add_converted(
    alloc: Global,
    layout: &Layout,
    area: &[u8],
    out: &mut Bytes,
) -> Result<(), NoMemory>
    ensures { OnOk result (out.new ≡ out.old
        ++ flat_map (dump_line (convert (fields_of layout.now) area.now)) layout.now.vars) }
{
    let mut shown = vec![in alloc; 0u8; layout.area_len as usize]?;
    layout.convert(area, &mut shown);
    add_dump(layout, &shown, out)
}

// The line of the number of an entry.
fn entry_line(alloc: Global, number: usize) -> Result<Bytes, NoMemory>
    ensures { IfOk result (λ line. line ≡ entry_line number) }
{
    let mut line = Bytes::none(alloc);
    let words = format!(in alloc; "entry {number}\n")?;
    line.add(words.as_bytes())?;
    Ok(line)
}

/// Adds the lines of an entry that was read again, whose area is in front of what is left where it
/// passes. Without memory `out` is as before.
pub(crate) fn add_ended(
    alloc: Global,
    layout: &Layout,
    number: usize,
    ended: Option<Ended>,
    left: &[u8],
    out: &mut Bytes,
) -> Result<(), NoMemory>
    requires { IfSome ended (FitsRoom (length left.now)) }
    ensures added { OnOk result
        (out.new ≡ out.old ++ ended_text (fields_of layout.now) number left.now ended) }
    ensures unchanged { OnErr result (out.new ≡ out.old) }
{
    let Some(ended) = ended else {
        return Ok(());
    };
    add_passing(alloc, layout, number, ended.passed, left, out)
}

/// Adds the lines of a copy that holds one record at most. Where it passes, its area has `passed`
/// bytes, and is in front of what is left. Without memory a front of them was added.
pub(crate) fn add_single(
    alloc: Global,
    layout: &Layout,
    copy: usize,
    passed: Option<usize>,
    left: &[u8],
    out: &mut Bytes,
) -> Result<(), NoMemory>
    requires { IfSome passed (λ len. len ≤ length left.now) }
    ensures { Adds (shown_text (fields_of layout.now) copy
        (option_to_list (option_map (λ len. take len left.now) passed)))
        out.old out.new result }
{
    add_count(alloc, copy, count_of(passed), out)?;
    add_passing(alloc, layout, 1, passed, left, out)
}

// How many entries a copy has that holds one record at most.
fn count_of(passed: Option<usize>) -> usize
    ensures { result ≡ option_map_or (λ _. 1) passed 0 }
{
    match passed {
        Some(_) => 1,
        None => 0,
    }
}

// Adds the lines of the entry of a number where it passes.
fn add_passing(
    alloc: Global,
    layout: &Layout,
    number: usize,
    passed: Option<usize>,
    left: &[u8],
    out: &mut Bytes,
) -> Result<(), NoMemory>
    requires { IfSome passed (λ len. len ≤ length left.now) }
    ensures added { OnOk result
        (out.new ≡ out.old ++ passing_text (fields_of layout.now) number left.now passed) }
    ensures unchanged { OnErr result (out.new ≡ out.old) }
{
    let Some(len) = passed else {
        return Ok(());
    };
    add_entry(alloc, layout, number, front(left, len), out)
}

// The first bytes, of a number that there are.
fn front(bytes: &[u8], len: usize) -> &[u8]
    requires { len ≤ length bytes.now }
    ensures { result.now ≡ take len bytes.now }
{
    &bytes[..len]
}
