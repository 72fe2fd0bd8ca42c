ghost use Rattle.std.specs.Prelude.{◌≡◌, ◌≤◌, IfErr, IfOk, length};
ghost use Rattle.bb_base.specs.Folder.{file_limit};
ghost use Rattle.bb_plan.specs.FilesRead.{IsReadAs, file_reading, file_refusal};
ghost use Rattle.bb_plan.specs.Refusal.{IsSendableRefusal};

use crate::refusal::Refusal;
use bb_base::{Bytes, FileFail, Files, NoMemory, Text};
use std::alloc::Global;

/// The bytes of the file of that name, at most `FILE_LIMIT`.
pub(crate) fn read_file<N: Files>(
    alloc: Global,
    files: &mut N,
    name: &Text,
) -> Result<Bytes, Refusal>
    ensures read { IsReadAs (file_reading name.now) (λ bytes. bytes)
        (N.folder files.old) (N.folder files.new) result }
    ensures short { IfOk result (λ bytes. length bytes ≤ file_limit) }
    ensures tellable { IfErr result IsSendableRefusal }
{
    let mut bytes = Bytes::none(alloc);
    match files.read(name.as_str(), &mut bytes) {
        Ok(true) => Ok(bytes),
        Ok(false) => Err(Refusal::FileMissing(name.copy()?)),
        Err(fail) => Err(file_refusal(name, fail)?),
    }
}

// The refusal that names a file that can't be read.
fn file_refusal(name: &Text, fail: FileFail) -> Result<Refusal, NoMemory>
    ensures is { IfOk result (λ refusal. refusal ≡ file_refusal name.now fail) }
    ensures tellable { IfOk result IsSendableRefusal }
{
    match fail {
        FileFail::Fault => Ok(Refusal::FileFault(name.copy()?)),
        FileFail::TooLong => Ok(Refusal::FileTooLong(name.copy()?)),
        FileFail::NoMemory => Ok(Refusal::NoMemory),
    }
}
