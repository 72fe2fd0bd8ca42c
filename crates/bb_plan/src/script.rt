ghost use Rattle.std.specs.Prelude.{IfErr};
ghost use Rattle.bb_plan.specs.PlanSteps.{script_by, script_reading};
ghost use Rattle.bb_plan.specs.FilesRead.{IsExpected, IsReadAs};
ghost use Rattle.bb_plan.specs.Refusal.{IsSendableRefusal};

use crate::file::read_file;
use crate::refusal::Refusal;
use bb_base::{Files, Text};
use bb_script::SpeltScript;
use std::alloc::Global;

/// The script in a file.
pub(crate) fn read_script_file<N: Files>(
    alloc: Global,
    files: &mut N,
    file: &Text,
) -> Result<SpeltScript, Refusal>
    ensures read { IsReadAs (script_reading file.now) (λ script. script)
        (N.folder files.old) (N.folder files.new) result }
    ensures tellable { IfErr result IsSendableRefusal }
{
    let text = read_file(alloc, files, file)?;
    spelt_script(alloc, text.as_slice())
}

// The script that a text spells.
fn spelt_script(alloc: Global, text: &[u8]) -> Result<SpeltScript, Refusal>
    ensures gives { IsExpected (script_by text.now) (λ script. script) result }
    ensures tellable { IfErr result IsSendableRefusal }
{
    Ok(SpeltScript::read(alloc, text)?)
}
