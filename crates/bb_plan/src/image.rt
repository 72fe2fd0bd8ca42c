ghost use Rattle.std.specs.Prelude.{◌≡◌, ◌≤◌, IfErr, IfOk, length};
ghost use Rattle.bb_base.specs.Folder.{file_limit};
ghost use Rattle.bb_plan.specs.Installing.{digested, fitting, image_reading};
ghost use Rattle.bb_plan.specs.FilesRead.{IsExpected, IsReadAs};
ghost use Rattle.bb_plan.specs.Refusal.{IsSendableRefusal};

use crate::file::read_file;
use crate::refusal::Refusal;
use bb_base::{Bytes, Files, Text};
use bb_flash::Region;
use bb_install::digest_of;
use std::alloc::Global;

/// The image in a file, where it is no longer than the slot.
pub(crate) fn read_image<N: Files>(
    alloc: Global,
    files: &mut N,
    slot: Region,
    file: &Text,
) -> Result<Bytes, Refusal>
    ensures read { IsReadAs (image_reading file.now slot) (λ image. image)
        (N.folder files.old) (N.folder files.new) result }
    ensures fits { IfOk result (λ image. length image ≤ slot.size) }
    ensures tellable { IfErr result IsSendableRefusal }
{
    let image = read_file(alloc, files, file)?;
    fitting(slot, image)
}

// An image, where it is no longer than the slot.
fn fitting(slot: Region, image: Bytes) -> Result<Bytes, Refusal>
    requires { length image ≤ file_limit }
    ensures gives { IsExpected (fitting slot image) (λ image. image) result }
    ensures fits { IfOk result (λ image. length image ≤ slot.size) }
    ensures tellable { IfErr result IsSendableRefusal }
{
    let len = image.as_slice().len();
    if len <= slot.size as usize {
        return Ok(image);
    }
    Err(Refusal::ImageTooLong(len as u32))
}

/// An image, where this is its SHA-256.
pub(crate) fn digested(alloc: Global, image: Bytes, digest: &[u8]) -> Result<Bytes, Refusal>
    ensures gives { IsExpected (digested digest.now image) (λ image. image) result }
    ensures same { IfOk result (λ kept. kept ≡ image) }
    ensures tellable { IfErr result IsSendableRefusal }
{
    let mut found = Bytes::none(alloc);
    found.add(&digest_of(image.as_slice()))?;
    if found.as_slice() == digest {
        return Ok(image);
    }
    Err(Refusal::BadDigest(found))
}
