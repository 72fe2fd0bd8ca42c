ghost use Rattle.std.specs.Prelude.{◌≡◌, ◌<◌, IfErr, IfOk, length};
ghost use Rattle.bb_shell.specs.Plans.{NamesTarget};
ghost use Rattle.bb_plan.specs.PlanSteps.{entry_fault, entry_name, plans_reading};
ghost use Rattle.bb_plan.specs.FilesRead.{IsReadAs};
ghost use Rattle.bb_plan.specs.Refusal.{IsSendableRefusal};

use crate::refusal::Refusal;
use bb_base::{Files, NoMemory, Text};
use bb_chooser::Chooser;
use bb_flash::PlanList;
use bb_shell::{PlanFault, read_plans};
use std::alloc::Global;

/// The plan of each target, from its entry's file. A file that can't be read is named.
pub(crate) fn read_entries<N: Files>(
    alloc: Global,
    files: &mut N,
    chooser: &Chooser,
) -> Result<PlanList, Refusal>
    ensures read { IsReadAs (plans_reading chooser.now) (λ plans. plans)
        (N.folder files.old) (N.folder files.new) result }
    ensures tellable { IfErr result IsSendableRefusal }
{
    match read_plans(alloc, chooser, files) {
        Ok(plans) => Ok(plans),
        Err(fault) => Err(entry_fault(chooser, fault)?),
    }
}

// The refusal that names the file of an entry.
fn entry_fault(chooser: &Chooser, fault: PlanFault) -> Result<Refusal, NoMemory>
    requires { NamesTarget chooser.now fault }
    ensures is { IfOk result (λ refusal. refusal ≡ entry_fault chooser.now fault) }
    ensures tellable { IfOk result IsSendableRefusal }
{
    match fault {
        PlanFault::FileFault(target) => Ok(Refusal::FileFault(entry_name(chooser, target)?)),
        PlanFault::FileTooLong(target) => Ok(Refusal::FileTooLong(entry_name(chooser, target)?)),
        PlanFault::NoMemory => Ok(Refusal::NoMemory),
    }
}

fn entry_name(chooser: &Chooser, target: usize) -> Result<Text, NoMemory>
    requires { target < length chooser.now.targets }
    ensures { IfOk result (λ name. name ≡ entry_name chooser.now target) }
{
    let Some(name) = chooser.entry(target) else {
        unreachable!()
    };
    name.copy()
}
