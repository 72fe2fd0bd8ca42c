ghost use Rattle.std.specs.Prelude.{◌≡◌, ◌<◌, ◌++◌, IfOk, OnOk, length, slice_get, Some};
ghost use Rattle.bb_script_commands.specs.Sending.{target_name, counts_line, counts_lines};

use bb_base::{Bytes, NoMemory};
use bb_chooser::Chooser;
use bb_vars::Table;
use std::alloc::Global;

/// A line of each target, with what a table has as its priority and its attempts.
pub(crate) fn counts_lines(
    alloc: Global,
    chooser: &Chooser,
    table: &Table,
) -> Result<Bytes, NoMemory>
    requires { length table.now ≡ chooser.now.area_len }
    ensures { IfOk result (λ text. text ≡ counts_lines chooser.now table.now) }
{
    let mut text = Bytes::none(alloc);
    for target in 0..chooser.count() {
        let name = target_name(chooser, target);
        let priority = chooser.priority(table, target);
        let attempts = chooser.attempts(table, target);
        add_counts_line(alloc, name, priority, attempts, &mut text)?;
    }
    Ok(text)
}

fn add_counts_line(
    alloc: Global,
    name: &str,
    priority: u32,
    attempts: u32,
    text: &mut Bytes,
) -> Result<(), NoMemory>
    ensures { OnOk result (text.new ≡ text.old ++ counts_line name.now priority attempts) }
{
    let line = format!(in alloc; "{name} priority {priority} attempts {attempts}\n")?;
    text.add(line.as_bytes())
}

/// The name of a target, empty where there is none at this place.
pub(crate) fn target_name(chooser: &Chooser, target: usize) -> &str
    ensures { result.now ≡ target_name chooser.now target }
{
    match chooser.name(target) {
        Some(name) => name.as_str(),
        None => "",
    }
}
