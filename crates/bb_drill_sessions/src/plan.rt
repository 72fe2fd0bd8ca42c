ghost use Rattle.std.specs.Prelude.{◌≡◌, IfOk, Ok};
ghost use Rattle.bb_drill.specs.Board.{board_geometry};
ghost use Rattle.bb_plan.specs.Plan.{IsPlannedFor, plan_as};
ghost use Rattle.bb_drill_sessions.specs.Plans.{drill_plan};

use crate::documents::documents;
use crate::words::drill_words;
use bb_base::NoMemory;
use bb_drill::DrillCommand;
use bb_flash::Geometry;
use bb_plan::{PlannedTask, PlannedWork, plan_session};
use std::alloc::Global;

// The board of a drill.
const GEOMETRY: Geometry = Geometry {
    page: 64,
    block: 256,
    size: 768,
};

/// The plan of a session. NoMemory stands for any other refusal too: the drill's own words and
/// files bring none.
pub(crate) fn plan_of(alloc: Global, command: DrillCommand) -> Result<PlannedWork, NoMemory>
    ensures is { IfOk result (λ plan. drill_plan command ≡ Ok (plan_as plan)) }
    ensures planned { IfOk result (λ plan. IsPlannedFor board_geometry (plan_as plan)) }
{
    let mut files = documents(alloc)?;
    let words = drill_words(alloc, command)?;
    let Ok(task) = plan_session(alloc, &words, &mut files, GEOMETRY) else {
        return Err(NoMemory);
    };
    match task {
        PlannedTask::OnCopies(plan) => Ok(plan),
        PlannedTask::Prints(_) | PlannedTask::Drills(_) => Err(NoMemory),
        PlannedTask::Compares(_) => Err(NoMemory),
    }
}
