ghost use Rattle.std.specs.Prelude.{◌≡◌, All, length};
ghost use Rattle.bb_chooser.specs.Binding.{IsInside};
ghost use Rattle.bb_chooser.specs.Resets.{with_attempts, with_attempts_if, with_priorities};
ghost use Rattle.bb_chooser.specs.Resets.{with_priorities_if};

use crate::bound_target::BoundTarget;
use crate::number::put_number;
use crate::resets::Resets;
use bb_vars::Table;

/// Gives priorities their defaults back, if a reset does so.
pub(crate) fn reset_priorities(targets: &[BoundTarget], table: &mut Table, resets: Resets)
    requires { All (IsInside (length table.old)) targets.now }
    ensures put { table.new ≡ with_priorities_if resets.priorities table.old targets.now }
    ensures same_length { length table.new ≡ length table.old }
{
    if resets.priorities {
        put_default_priorities(targets, table);
    }
}

fn put_default_priorities(targets: &[BoundTarget], table: &mut Table)
    requires { All (IsInside (length table.old)) targets.now }
    ensures put { table.new ≡ with_priorities table.old targets.now }
    ensures same_length { length table.new ≡ length table.old }
{
    for target in targets {
        put_number(table, target.priority_at, target.target.default_priority);
    }
}

/// Gives attempts their defaults back, if a reset does so.
pub(crate) fn reset_attempts(targets: &[BoundTarget], table: &mut Table, resets: Resets)
    requires { All (IsInside (length table.old)) targets.now }
    ensures put { table.new ≡ with_attempts_if resets.attempts table.old targets.now }
    ensures same_length { length table.new ≡ length table.old }
{
    if resets.attempts {
        put_default_attempts(targets, table);
    }
}

fn put_default_attempts(targets: &[BoundTarget], table: &mut Table)
    requires { All (IsInside (length table.old)) targets.now }
    ensures put { table.new ≡ with_attempts table.old targets.now }
    ensures same_length { length table.new ≡ length table.old }
{
    for target in targets {
        put_number(table, target.attempts_at, target.target.default_attempts);
    }
}
