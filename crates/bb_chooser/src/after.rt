ghost use Rattle.std.specs.Prelude.{◌≡◌, ◌&&◌, All, IfSome, IfNone, length, nat_lt};
ghost use Rattle.std.specs.List.{list_all, list_any};
ghost use Rattle.bb_chooser.specs.After as after;
ghost use Rattle.bb_chooser.specs.After.{counts_after};
ghost use Rattle.bb_chooser.specs.Binding.{IsInside};
ghost use Rattle.bb_chooser.specs.Choosing.{IsBestIn, NoneQualifiesIn};
ghost use Rattle.bb_chooser.specs.Resets.{is_spent, is_used_up};
ghost use Rattle.bb_chooser.specs.ResetsOf.{lacks_priority};

use crate::bound_target::BoundTarget;
use crate::count::Count;
use crate::number::number_at;
use crate::resets::Resets;
use bb_vars::Table;

/// What is left to a target after a reset.
fn count_after(target: &BoundTarget, table: &Table, resets: Resets) -> Count
    requires { IsInside (length table.now) target.now }
    ensures { result ≡ after.count_after resets table.now target.now }
{
    let defaults = &target.target;
    let priority = number_at(table, target.priority_at);
    let attempts = number_at(table, target.attempts_at);
    Count {
        priority: default_or(resets.priorities, defaults.default_priority, priority),
        attempts: default_or(resets.attempts, defaults.default_attempts, attempts),
    }
}

fn default_or(is_reset: bool, default: u32, kept: u32) -> u32
    ensures { result ≡ after.default_or is_reset default kept }
{
    if is_reset { default } else { kept }
}

/// The best target after a reset, counted from 0.
pub(crate) fn best_after(targets: &[BoundTarget], table: &Table, resets: Resets) -> Option<usize>
    requires { All (IsInside (length table.now)) targets.now }
    ensures best { IfSome result (IsBestIn (counts_after resets table.now targets.now)) }
    ensures none { IfNone result (NoneQualifiesIn (counts_after resets table.now targets.now)) }
{
    let mut best = None;
    let mut highest = 0;
    for i in 0..targets.len() {
        let count = count_after(&targets[i], table, resets);
        if !is_better(count, highest) {
            continue;
        }
        best = Some(i);
        highest = count.priority;
    }
    best
}

// Whether a target qualifies, and has a priority above that of the best before it.
fn is_better(count: Count, highest: u32) -> bool
    ensures { result ≡ (nat_lt 0 count.attempts && nat_lt highest count.priority) }
{
    count.attempts > 0 && count.priority > highest
}

/// Whether no target has a priority.
pub(crate) fn have_no_priority(targets: &[BoundTarget], table: &Table) -> bool
    requires { All (IsInside (length table.now)) targets.now }
    ensures { result ≡ list_all (lacks_priority table.now) targets.now }
{
    targets
        .iter()
        .all(|target| number_at(table, target.priority_at) == 0)
}

/// Whether some target has a priority after a reset, and each that has one has no attempts.
pub(crate) fn are_used_up(targets: &[BoundTarget], table: &Table, resets: Resets) -> bool
    requires { All (IsInside (length table.now)) targets.now }
    ensures { result ≡ is_used_up (counts_after resets table.now targets.now) }
{
    have_priority(targets, table, resets) && have_no_attempts(targets, table, resets)
}

fn have_priority(targets: &[BoundTarget], table: &Table, resets: Resets) -> bool
    requires { All (IsInside (length table.now)) targets.now }
    ensures { result ≡ list_any (after.has_priority_after resets table.now) targets.now }
{
    targets
        .iter()
        .any(|target| count_after(target, table, resets).priority > 0)
}

fn have_no_attempts(targets: &[BoundTarget], table: &Table, resets: Resets) -> bool
    requires { All (IsInside (length table.now)) targets.now }
    ensures { result ≡ list_all (after.is_spent_after resets table.now) targets.now }
{
    targets
        .iter()
        .all(|target| is_spent(count_after(target, table, resets)))
}

// Without a priority, or without attempts.
fn is_spent(count: Count) -> bool
    ensures { result ≡ is_spent count }
{
    count.priority == 0 || count.attempts == 0
}
