ghost use Rattle.std.specs.Prelude.{◌≡◌, All, List, length};
ghost use Rattle.bb_actions.specs.Actions.{AreBoundTo, FitsArea, after, after_all};
ghost use Rattle.bb_layout.specs.Outside.{ChangesVarsAlone};
ghost use Rattle.bb_layout.specs.declared.var.Var.{Var};

use crate::{BoundAction, BoundActionList};
use bb_vars::Table;

/// Puts the values of actions into a table, in their order. Each ends in the table. They change
/// the variables alone to which the actions are bound.
pub fn put_values(table: &mut Table, actions: &BoundActionList)
    requires { All (FitsArea (length table.old)) actions.now }
    ensures table { table.new ≡ after_all table.old actions.now }
    ensures same_length { length table.new ≡ length table.old }
    ensures outside { (vars : List Var) → AreBoundTo vars actions.now
        → ChangesVarsAlone vars table.old table.new }
{
    for action in actions.as_slice() {
        put_value(table, action);
    }
}

fn put_value(table: &mut Table, action: &BoundAction)
    requires { FitsArea (length table.old) action.now }
    ensures table { table.new ≡ after table.old action.now }
    ensures same_length { length table.new ≡ length table.old }
{
    if let BoundAction::Put { at, bytes } = action {
        table.put(*at, bytes.as_slice());
    }
}
