ghost use Rattle.std.specs.Prelude.{◌≡◌, Ok, IfOk, IfErr, position};
ghost use Rattle.std.specs.Str.{bytes_eq};
ghost use Rattle.bb_chooser.specs.Binding.{IsBoundTo, bind_of};
ghost use Rattle.bb_chooser.specs.Refusals.{Refuses};
ghost use Rattle.bb_chooser.specs.Resets.{has_cause};

mod counting;

use crate::SettingsError;
use crate::after::{are_used_up, best_after, have_no_priority};
use crate::bind::{bound_targets, last_chosen_at};
use crate::bound_target::BoundTarget;
use crate::cause::Cause;
use crate::events::Events;
use crate::number::number_at;
use crate::resets::Resets;
use crate::rules::Rules;
use crate::settings::Settings;
use crate::writes::{reset_attempts, reset_priorities};
use bb_base::Text;
use bb_layout::Layout;
use bb_vars::Table;
use std::alloc::Global;
use std::marker::Model;

/// Targets that are bound to the variables of a layout. They are counted from 0; a target's place,
/// as a table keeps it, is that number plus 1. No two of their variables share a byte.
#[derive(Drop)]
pub struct Chooser {
    targets: Vec<BoundTarget>,
    rules: Rules,
    last_chosen_at: u32,
    area_len: u32,
}

impl Model for Chooser {
    ghost use Rattle.bb_chooser.specs.Binding.{Binding, IsBinding, binding};

    ghost Value = { Binding };

    ghost view = { λ c. binding c.targets.items c.rules c.last_chosen_at c.area_len };

    ghost invariant = { λ c.
        IsBinding (binding c.targets.items c.rules c.last_chosen_at c.area_len) };
}

impl Chooser {
    ghost use Rattle.std.specs.Prelude.{◌<◌, ◌≤◌, ◌↔◌, List, ℕ, Ok, IfOk, IfErr, IfSome, IsNone};
    ghost use Rattle.std.specs.Prelude.{length};
    ghost use Rattle.std.specs.Option.{option_copied};
    ghost use Rattle.bb_base.specs.Form.{area_limit};
    ghost use Rattle.bb_chooser.specs.Binding.{IsBinding, IsBoundTo, bind_of};
    ghost use Rattle.bb_chooser.specs.Choosing as choosing;
    ghost use Rattle.bb_chooser.specs.Choosing.{IsBest, NoneQualifies, entry_file, name_of};
    ghost use Rattle.bb_chooser.specs.Choosing.{target_place};
    ghost use Rattle.bb_chooser.specs.Others.{KeepsOthers};
    ghost use Rattle.bb_chooser.specs.Refusals.{ComesFrom, Refuses};
    ghost use Rattle.bb_chooser.specs.Resets.{reset_of};
    ghost use Rattle.bb_chooser.specs.ResetsOf.{attempts_reset, priorities_reset, resets_of};

    /// Binds each target to its variables of the layout, `remaining_attempts` before `priority`,
    /// and `last_chosen` last. The prefix's first name is the layout's, and the rest leads to the
    /// variables (barebox User Manual, Bootchooser).
    pub fn bind(
        alloc: Global,
        settings: Settings,
        layout: &Layout,
    ) -> Result<Chooser, SettingsError>
        ensures ok { IfOk result (λ chooser. bind_of settings layout.now ≡ Ok chooser) }
        ensures refused { IfErr result (Refuses (bind_of settings layout.now)) }
        ensures sized { IfOk result (λ chooser. chooser.area_len ≡ layout.now.area_len) }
        ensures bound { IfOk result (IsBoundTo layout.now.vars) }

        // Each refusal, and where it comes.
        ensures no_such_variable { (name : List ℕ) → ComesFrom result
            (bind_of settings layout.now) (SettingsError.NoSuchVariable name) }
        ensures not_uint32 { (name : List ℕ) → ComesFrom result
            (bind_of settings layout.now) (SettingsError.NotUint32 name) }
    {
        bound_chooser(alloc, settings, layout)
    }

    /// How many targets there are. Since no two of their variables share a byte they are at most
    /// 65,535.
    pub fn count(&self) -> usize
        ensures count { result ≡ length self.now.targets }
        ensures few { result ≤ area_limit }
        ensures binding { IsBinding self.now }
    {
        self.targets.len()
    }

    /// A target's name, `None` exactly from the count on.
    pub fn name(&self, target: usize) -> Option<&Text>
        ensures { option_copied result ≡ name_of self.now target }
    {
        let bound = self.targets.get(target)?;
        Some(&bound.target.name)
    }

    /// The target of that name, counted from 0, `None` exactly where there is none.
    pub fn find(&self, name: &str) -> Option<usize>
        ensures value { result ≡ target_place self.now name.now }
        ensures inside { IfSome result (λ target. target < length self.now.targets) }
    {
        target_place(self.targets.as_slice(), name)
    }

    /// The name of a target's entry file, `None` exactly from the count on.
    pub fn entry(&self, target: usize) -> Option<&Text>
        ensures { option_copied result ≡ entry_file self.now target }
    {
        let bound = self.targets.get(target)?;
        Some(&bound.target.entry)
    }

    /// Whether another target is tried in the same session after one that failed.
    pub fn retry(&self) -> bool
        ensures { result ≡ self.now.rules.retry }
    {
        self.rules.retry
    }

    /// What a table has as a target's priority.
    pub fn priority(&self, table: &Table, target: usize) -> u32
        requires sized { length table.now ≡ self.now.area_len }
        requires there { target < length self.now.targets }
        ensures { result ≡ choosing.priority_of self.now table.now target }
    {
        number_at(table, self.targets[target].priority_at)
    }

    /// What a table has as a target's remaining attempts.
    pub fn attempts(&self, table: &Table, target: usize) -> u32
        requires sized { length table.now ≡ self.now.area_len }
        requires there { target < length self.now.targets }
        ensures { result ≡ choosing.attempts_of self.now table.now target }
    {
        number_at(table, self.targets[target].attempts_at)
    }

    /// What a table has as the place of the target that was chosen last.
    pub fn last_chosen(&self, table: &Table) -> u32
        requires { length table.now ≡ self.now.area_len }
        ensures { result ≡ choosing.last_chosen_of self.now table.now }
    {
        number_at(table, self.last_chosen_at)
    }

    /// The target that starts next: of those with a priority and attempts left the one of the
    /// highest priority, and of equal ones the first. `None` exactly where there is none.
    pub fn choose(&self, table: &Table) -> Option<usize>
        requires { length table.now ≡ self.now.area_len }
        ensures best { IfSome result (IsBest self.now table.now) }
        ensures none { IsNone result ↔ NoneQualifies self.now table.now }
    {
        let resets = Resets {
            priorities: false,
            attempts: false,
        };
        best_after(self.targets.as_slice(), table, resets)
    }

    /// The target that `choose` gives for the table that `reset` would leave. Nothing is changed.
    pub fn choose_after(&self, table: &Table, cause: Cause) -> Option<usize>
        requires { length table.now ≡ self.now.area_len }
        ensures best { IfSome result (IsBest self.now (reset_of self.now cause table.now)) }
        ensures none { IsNone result ↔ NoneQualifies self.now (reset_of self.now cause table.now) }
    {
        best_after(self.targets.as_slice(), table, self.resets(table, cause))
    }

    /// Gives priorities, and then attempts, their defaults back, where the settings say so for this
    /// cause and table.
    pub fn reset(&self, table: &mut Table, cause: Cause)
        requires { length table.old ≡ self.now.area_len }
        ensures reset { table.new ≡ reset_of self.now cause table.old }
        ensures others { KeepsOthers self.now table.old table.new }
    {
        let resets = self.resets(table, cause);
        reset_priorities(self.targets.as_slice(), table, resets);
        reset_attempts(self.targets.as_slice(), table, resets);
    }

    // What a reset brings back.
    fn resets(&self, table: &Table, cause: Cause) -> Resets
        requires { length table.now ≡ self.now.area_len }
        ensures { result ≡ resets_of self.now cause table.now }
    {
        let priorities = self.resets_priorities(table);
        let resets = Resets {
            priorities,
            attempts: false,
        };
        Resets {
            priorities,
            attempts: self.resets_attempts(table, cause, resets),
        }
    }

    fn resets_priorities(&self, table: &Table) -> bool
        requires { length table.now ≡ self.now.area_len }
        ensures { result ≡ priorities_reset self.now table.now }
    {
        self.rules.reset_priorities && have_no_priority(self.targets.as_slice(), table)
    }

    // Whether attempts get their defaults back, after what has been reset.
    fn resets_attempts(&self, table: &Table, cause: Cause, resets: Resets) -> bool
        requires { length table.now ≡ self.now.area_len }
        ensures { result ≡ attempts_reset self.now cause resets table.now }
    {
        let events = self.rules.reset_attempts;
        if has_cause(events, cause) {
            return true;
        }
        events.all_zero && are_used_up(self.targets.as_slice(), table, resets)
    }
}

// The first of these targets that is called so.
fn target_place(targets: &[BoundTarget], name: &str) -> Option<usize>
    ensures { result ≡ position (λ t. bytes_eq t.target.name name.now) targets.now }
{
    targets
        .iter()
        .position(|bound| bound.target.name.as_str() == name)
}

fn bound_chooser(
    alloc: Global,
    settings: Settings,
    layout: &Layout,
) -> Result<Chooser, SettingsError>
    ensures ok { IfOk result (λ chooser. bind_of settings layout.now ≡ Ok chooser) }
    ensures refused { IfErr result (Refuses (bind_of settings layout.now)) }
    ensures sized { IfOk result (λ chooser. chooser.area_len ≡ layout.now.area_len) }
    ensures bound { IfOk result (IsBoundTo layout.now.vars) }
{
    let Settings {
        targets,
        prefix,
        rules,
    } = settings;
    let targets = bound_targets(alloc, layout, prefix.as_str(), targets)?;
    let last_chosen_at = last_chosen_at(alloc, layout, prefix.as_str())?;
    Ok(Chooser {
        targets,
        rules,
        last_chosen_at,
        area_len: layout.area_len,
    })
}

fn has_cause(events: Events, cause: Cause) -> bool
    ensures { result ≡ has_cause events cause }
{
    match cause {
        Cause::PowerOn => events.power_on,
        Cause::Reset => events.reset,
        Cause::Other => false,
    }
}
