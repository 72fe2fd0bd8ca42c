ghost use Rattle.std.specs.Prelude.{◌≡◌, ◌==◌, ◌&&◌, ◌<◌, ◌↔◌, IsSome, IsTrue, length};
ghost use Rattle.bb_chooser.specs.Choosing as choosing;
ghost use Rattle.bb_chooser.specs.Counting.{HasDefaults, chosen_target, disable_of, enable_of};
ghost use Rattle.bb_chooser.specs.Counting.{mark_good_of, spend_of};
ghost use Rattle.bb_chooser.specs.Others.{KeepsOthers};

use crate::Chooser;
use crate::number::{number_at, put_number};
use crate::rules::Rules;
use bb_vars::Table;

impl Chooser {
    /// Takes an attempt from a target, which has one, and notes it as the one that was chosen last.
    /// With its last attempt it loses its priority, where the settings say so.
    pub fn spend(&self, table: &mut Table, target: usize)
        requires sized { length table.old ≡ self.now.area_len }
        requires there { target < length self.now.targets }
        requires left { 0 < choosing.attempts_of self.now table.old target }
        ensures spent { table.new ≡ spend_of self.now table.old target }
        ensures others { KeepsOthers self.now table.old table.new }
    {
        let bound = &self.targets[target];
        let left = number_at(table, bound.attempts_at) - 1;
        put_number(table, bound.attempts_at, left);
        put_number(table, self.last_chosen_at, target as u32 + 1);
        if !disables(self.rules, left) {
            return;
        }
        put_number(table, bound.priority_at, 0);
    }

    /// Gives the target that was chosen last its default attempts back. The answer is false, and
    /// nothing changes, exactly where no target has that place.
    pub fn mark_good(&self, table: &mut Table) -> bool
        requires { length table.old ≡ self.now.area_len }
        ensures good { IsTrue result ↔ IsSome (chosen_target self.now table.old) }
        ensures marked { table.new ≡ mark_good_of self.now table.old }
        ensures others { KeepsOthers self.now table.old table.new }
    {
        let Some(target) = self.chosen_target(table) else {
            return false;
        };
        let bound = &self.targets[target];
        put_number(table, bound.attempts_at, bound.target.default_attempts);
        true
    }

    /// Takes its priority from a target, so that it isn't chosen. Its attempts stay.
    pub fn disable(&self, table: &mut Table, target: usize)
        requires sized { length table.old ≡ self.now.area_len }
        requires there { target < length self.now.targets }
        ensures disabled { table.new ≡ disable_of self.now table.old target }
        ensures without { choosing.priority_of self.now table.new target ≡ 0 }
        ensures others { KeepsOthers self.now table.old table.new }
    {
        let disabled = &self.targets[target];
        put_number(table, disabled.priority_at, 0);
    }

    /// Gives a target its default priority and its default attempts.
    pub fn enable(&self, table: &mut Table, target: usize)
        requires sized { length table.old ≡ self.now.area_len }
        requires there { target < length self.now.targets }
        ensures enabled { table.new ≡ enable_of self.now table.old target }
        ensures defaults { HasDefaults self.now table.new target }
        ensures others { KeepsOthers self.now table.old table.new }
    {
        let bound = &self.targets[target];
        put_number(table, bound.priority_at, bound.target.default_priority);
        put_number(table, bound.attempts_at, bound.target.default_attempts);
    }

    // The target that was chosen last, from 0.
    fn chosen_target(&self, table: &Table) -> Option<usize>
        requires { length table.now ≡ self.now.area_len }
        ensures { result ≡ chosen_target self.now table.now }
    {
        let place = number_at(table, self.last_chosen_at) as usize;
        if place == 0 {
            return None;
        }
        if place > self.targets.len() {
            return None;
        }
        Some(place - 1)
    }
}

// Whether a target loses its priority.
fn disables(rules: Rules, left: u32) -> bool
    ensures { result ≡ (rules.disable_on_zero_attempts && (left == 0)) }
{
    rules.disable_on_zero_attempts && left == 0
}
