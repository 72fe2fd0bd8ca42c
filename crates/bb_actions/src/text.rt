ghost use Rattle.std.specs.Prelude.{◌≡◌, ◌++◌, IfOk, OnOk, length};
ghost use Rattle.bb_layout.specs.Layout.{fields_of};
ghost use Rattle.bb_actions.specs.Actions.{action_text, actions_text};

use crate::{BoundAction, BoundActionList};
use bb_base::{Bytes, NoMemory};
use bb_layout::Layout;
use bb_state::{add_dump, add_shell_dump, add_value_line};
use std::alloc::Global;

/// The text of what all actions get and dump, in their order, over an area of the layout: a line
/// for each value, ended by LF. For a variable that the layout doesn't have nothing is sent, but
/// `read_actions` gives no such action.
pub fn actions_text(
    alloc: Global,
    layout: &Layout,
    area: &[u8],
    actions: &BoundActionList,
) -> Result<Bytes, NoMemory>
    requires { length area.now ≡ layout.now.area_len }
    ensures { IfOk result (λ text.
        text ≡ actions_text (fields_of layout.now) area.now actions.now) }
{
    let mut out = Bytes::none(alloc);
    for action in actions.as_slice() {
        add_action(alloc, layout, area, action, &mut out)?;
    }
    Ok(out)
}

fn add_action(
    alloc: Global,
    layout: &Layout,
    area: &[u8],
    action: &BoundAction,
    out: &mut Bytes,
) -> Result<(), NoMemory>
    requires { length area.now ≡ layout.now.area_len }
    ensures { OnOk result
        (out.new ≡ out.old ++ action_text (fields_of layout.now) area.now action.now) }
{
    match action {
        BoundAction::Put { .. } => Ok(()),
        BoundAction::Get(name) => add_value_line(layout, area, name.as_str(), out),
        BoundAction::Dump => add_dump(layout, area, out),
        BoundAction::DumpShell => add_shell_dump(alloc, layout, area, out),
    }
}
