ghost use Rattle.std.specs.Prelude.{◌≡◌, IfErr, IfOk};
ghost use Rattle.bb_plan.specs.FilesRead.{IsReadAs, menu_reading, menu_refusal};
ghost use Rattle.bb_plan.specs.Refusal.{IsSendableRefusal};

use crate::refusal::Refusal;
use bb_base::{Bytes, Files, NoMemory, Text};
use bb_menu::{MenuFault, read_menu_text};
use std::alloc::Global;

/// The text of a folder's menu. A folder that isn't there counts as a missing file, and a file that
/// can't be read is named by its folder.
pub(crate) fn read_menu<N: Files>(
    alloc: Global,
    files: &mut N,
    dir: &Text,
) -> Result<Bytes, Refusal>
    ensures read { IsReadAs (menu_reading dir.now) (λ text. text)
        (N.folder files.old) (N.folder files.new) result }
    ensures tellable { IfErr result IsSendableRefusal }
{
    match read_menu_text(alloc, dir.as_str(), files) {
        Ok(text) => Ok(text),
        Err(fault) => Err(menu_refusal(dir, fault)?),
    }
}

// The refusal that names the folder.
fn menu_refusal(dir: &Text, fault: MenuFault) -> Result<Refusal, NoMemory>
    ensures is { IfOk result (λ refusal. refusal ≡ menu_refusal dir.now fault) }
    ensures tellable { IfOk result IsSendableRefusal }
{
    match fault {
        MenuFault::NoFolder => Ok(Refusal::FileMissing(dir.copy()?)),
        MenuFault::FileFault => Ok(Refusal::FileFault(dir.copy()?)),
        MenuFault::FileTooLong => Ok(Refusal::FileTooLong(dir.copy()?)),
        MenuFault::NoMemory => Ok(Refusal::NoMemory),
    }
}
