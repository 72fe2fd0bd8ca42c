ghost use Rattle.std.specs.Prelude.{◌≡◌, ◌==◌, ◌+◌, ◌-◌, ◌≤◌, ◌++◌, ◌∷◌, [], length, option_map};
ghost use Rattle.std.specs.Prelude.{slice_get, is_err, IsErr, IsTrue, OnErr, OnOk};
ghost use Rattle.std.specs.Bool.{OnFalse};
ghost use Rattle.std.specs.List.{list_any};
ghost use Rattle.std.specs.Option.{option_copied};
ghost use Rattle.bb_flash.specs.Calls.{told_after_start};
ghost use Rattle.bb_flash.specs.Cuts.{IsLater};
ghost use Rattle.bb_flash.specs.Device.{IsDevice, StartKeeps};
ghost use Rattle.bb_base.specs.Faults.{counted, one_more};
ghost use Rattle.bb_flash.specs.Memory as memory;
ghost use Rattle.bb_flash.specs.Memory.{device_of};

use crate::cells::Cells;
use crate::{Board, MemBoard, Plan};
use bb_base::{Failed, NoMemory};
use std::marker::Model;

// A start that was made: its plan, and what the board held.
#[derive(Debug, Drop)]
pub struct StartMade {
    plan: Plan,
    cells: Cells,
}

impl Model for StartMade {
    ghost use Rattle.bb_flash.specs.Device.{Start};

    ghost Value = { Start };

    ghost view = { λ made. record { plan = made.plan; image = made.cells } };
}

impl MemBoard {
    /// Plans that a start fails, counted from 0 since the last restart over all that weren't
    /// refused.
    pub fn fail_start(&mut self, start: u32) -> Result<(), NoMemory>
        ensures ok { OnOk result (self.new
            ≡ record self.old { failing = self.old.failing ++ start ∷ [] }) }
        ensures err { OnErr result (self.new ≡ self.old) }
    {
        self.failing.push(start)?;
        Ok(())
    }

    /// How many starts were made.
    pub fn start_count(&self) -> u32
        ensures { result ≡ length self.now.told.starts }
    {
        self.starts.len() as u32
    }

    /// The plan of a start that was made, counted from 0; `None` exactly from their number on.
    pub fn plan_at(&self, start: u32) -> Option<&Plan>
        ensures { option_copied result ≡
            option_map (λ made. made.plan) (slice_get self.now.told.starts start) }
    {
        self.starts.get(start as usize).map(|made| &made.plan)
    }

    fn refuses_start(&self) -> bool
        ensures value { result ≡ memory.is_start_refused self.now }
        ensures room { OnFalse result
            (self.now.used + self.now.geometry.size ≤ self.now.most_bytes) }
    {
        self.was_cut || self.log.lacks_room(self.geometry.size) || self.tried == u64::MAX
    }

    // The next start is planned to fail.
    fn is_planned_to_fail(&self) -> bool
        ensures { result ≡ list_any (λ start. start == self.now.tried) self.now.failing }
    {
        let tried = self.tried;
        self.failing.iter().any(|start| u64::from(*start) == tried)
    }

    // Keeps a copy of the plan and of what the board holds, which takes room for good.
    fn keep_start(&mut self, plan: &Plan) -> Result<(), NoMemory>
        requires { self.old.used + self.old.geometry.size ≤ self.old.most_bytes }
        ensures ok { OnOk result (self.new ≡ record self.old {
          told = told_after_start plan.now self.old.told;
          most_bytes = self.old.most_bytes - self.old.geometry.size;
        }) }
        ensures err { OnErr result (self.new ≡ self.old) }
    {
        let made = StartMade {
            plan: plan.copy(self.alloc)?,
            cells: self.cells.copy(self.alloc)?,
        };
        self.starts.push(made)?;
        self.log.give_up(self.geometry.size);
        Ok(())
    }

    fn count_failed_start(&mut self) -> Failed
        ensures { self.new
            ≡ record self.old { start_faults = one_more self.old.start_faults } }
    {
        self.start_faults.raise();
        Failed
    }
}

impl Board for MemBoard {
    /// It is exact, but where memory is refused: then a start fails that would be made.
    fn start(&mut self, plan: &Plan) -> Result<(), Failed>
        ensures fails { IsTrue (memory.fails_to_start self.old) → IsErr result }
        ensures made { OnOk result (self.new ≡ memory.after_start plan.now self.old) }
        ensures not_made { OnErr result (self.new ≡ memory.after_failed_start self.old) }
        ensures done { OnOk result ((device_of self.new).told ≡
            option_map (told_after_start plan.now) (device_of self.old).told) }
        ensures failed { OnErr result ((device_of self.new).told ≡ (device_of self.old).told) }
        ensures keeps { StartKeeps (device_of self.old) (device_of self.new) }
        ensures later { IsLater (device_of self.old) (device_of self.new) }
        ensures whole { IsDevice (device_of self.new) }
        ensures start_faults { self.new.start_faults
            ≡ counted (is_err result) self.old.start_faults }
    {
        if self.refuses_start() {
            return Err(self.count_failed_start());
        }
        let fails = self.is_planned_to_fail();
        self.tried += 1;
        if fails || self.keep_start(plan).is_err() {
            return Err(self.count_failed_start());
        }
        Ok(())
    }
}
