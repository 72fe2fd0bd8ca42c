ghost use Rattle.std.specs.Prelude.{IfErr, IfOk};
ghost use Rattle.bb_layout.specs.Layout.{fields_of};
ghost use Rattle.bb_plan.specs.PlanSteps.{targets_by, binding_reading};
ghost use Rattle.bb_plan.specs.Plan.{IsBoundAt};
ghost use Rattle.bb_plan.specs.FilesRead.{IsExpected, IsReadAs};
ghost use Rattle.bb_plan.specs.Refusal.{IsSendableRefusal};

use crate::file::read_file;
use crate::refusal::Refusal;
use bb_base::{Files, Text};
use bb_chooser::{Chooser, Settings};
use bb_layout::Layout;
use std::alloc::Global;

/// The targets that the settings in a file name, bound to the variables of a layout.
pub(crate) fn read_targets<N: Files>(
    alloc: Global,
    files: &mut N,
    file: &Text,
    layout: &Layout,
) -> Result<Chooser, Refusal>
    ensures read { IsReadAs (binding_reading file.now (fields_of layout.now)) (λ chooser. chooser)
        (N.folder files.old) (N.folder files.new) result }
    ensures bound { IfOk result (IsBoundAt (fields_of layout.now)) }
    ensures tellable { IfErr result IsSendableRefusal }
{
    let text = read_file(alloc, files, file)?;
    bound_targets(alloc, text.as_slice(), layout)
}

// The same of the settings' text.
fn bound_targets(alloc: Global, text: &[u8], layout: &Layout) -> Result<Chooser, Refusal>
    ensures gives { IsExpected (targets_by (fields_of layout.now) text.now) (λ chooser. chooser)
        result }
    ensures bound { IfOk result (IsBoundAt (fields_of layout.now)) }
    ensures tellable { IfErr result IsSendableRefusal }
{
    let settings = Settings::read(alloc, text)?;
    Ok(Chooser::bind(alloc, settings, layout)?)
}
