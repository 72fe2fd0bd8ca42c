ghost use Rattle.std.specs.Prelude.{◌≡◌, option_map, is_err, OnOk, OnErr};
ghost use Rattle.bb_base.specs.Faults.{counted};
ghost use Rattle.bb_flash.specs.Calls.{told_after_start};
ghost use Rattle.bb_flash.specs.Cuts.{IsLater};
ghost use Rattle.bb_flash.specs.Device.{IsDevice, StartKeeps};

use crate::{Flash, Plan};
use bb_base::Failed;

/// A flash device on a board, which can start a system.
pub trait Board: Flash {
    /// Starts a system by a plan. Once it answered Ok the plan is the last among the starts, with
    /// what the device holds. A start that fails is counted once, and adds nothing; no other
    /// counts. It changes nothing on the device, so what a power cut leaves in it is what the
    /// device holds.
    fn start(&mut self, plan: &Plan) -> Result<(), Failed>
        ensures done { OnOk result ((Self.device self.new).told ≡
            option_map (told_after_start plan.now) (Self.device self.old).told) }
        ensures failed { OnErr result ((Self.device self.new).told ≡ (Self.device self.old).told) }
        ensures keeps { StartKeeps (Self.device self.old) (Self.device self.new) }
        ensures later { IsLater (Self.device self.old) (Self.device self.new) }
        ensures whole { IsDevice (Self.device self.new) }
        ensures start_faults { (Self.device self.new).start_faults
            ≡ counted (is_err result) (Self.device self.old).start_faults };
}
