ghost use Rattle.std.specs.Prelude.{◌≡◌, ◌+◌, ◌≤◌, ◌<◌, ◌%◌, IfOk, IfSome, is_err};
ghost use Rattle.std.specs.Prelude.{length};
ghost use Rattle.std.specs.Option.{ForSome};
ghost use Rattle.bb_base.specs.Faults.{counted};
ghost use Rattle.bb_flash.specs.Device.{content};
ghost use Rattle.bb_bucket.specs.Calls.{IsQuiet};
ghost use Rattle.bb_install.specs.Compared.{IsDifference};
ghost use Rattle.bb_install.specs.Holding.{IsComparison};
ghost use Rattle.bb_install.specs.Slot.{HasPlace};

use crate::page_difference::{first_unequal, page_difference};
use bb_base::Failed;
use bb_flash::{Flash, Health, Region};

/// The least offset, from the starts of the slot and the image, whose byte differs or whose page is
/// Lost; `None` exactly where the slot holds the image. It reads as many bytes at once as `buffer`
/// has, a positive multiple of the device's page; where a page of them is Lost it reads them again,
/// page by page. It fails where a read fails, changes nothing, and takes no memory.
pub fn first_difference<F: Flash>(
    slot: Region,
    image: &[u8],
    buffer: &mut [u8],
    flash: &mut F,
) -> Result<Option<u32>, Failed>
    requires place { HasPlace (F.device flash.old).geometry slot }
    requires fits { length image.now ≤ slot.size }
    requires some { 0 < length buffer.old }
    requires pages { length buffer.old % (F.device flash.old).geometry.page ≡ 0 }
    ensures done { IfOk result (λ found. ForSome (content (F.device flash.old)) (λ held.
        IsComparison (F.device flash.old).geometry.page slot image.now held found)) }
    ensures inside { IfOk result (λ found. IfSome found (λ offset. offset < length image.now)) }
    ensures quiet { IsQuiet (F.device flash.old) (F.device flash.new) }
    ensures faults { (F.device flash.new).faults
        ≡ counted (is_err result) (F.device flash.old).faults }
    ensures read_faults { (F.device flash.new).read_faults
        ≡ counted (is_err result) (F.device flash.old).read_faults }
{
    let _ = flash.geometry();
    let mut done = 0;
    while done < image.len() {
        let end = image.len().min(done + buffer.len());
        let piece = &image[done..end];
        if let Some(offset) = piece_difference(slot.at + done as u32, piece, buffer, flash)? {
            return Ok(Some(done as u32 + offset));
        }
        done = end;
    }
    Ok(None)
}

// The first difference of bytes that `buffer` has room for, and of those at a place of the device.
fn piece_difference<F: Flash>(
    at: u32,
    bytes: &[u8],
    buffer: &mut [u8],
    flash: &mut F,
) -> Result<Option<u32>, Failed>
    requires inside { at + length bytes.now ≤ (F.device flash.old).geometry.size }
    requires aligned { at % (F.device flash.old).geometry.page ≡ 0 }
    requires room { length bytes.now ≤ length buffer.old }
    requires page { (F.device flash.old).geometry.page ≤ length buffer.old }
    ensures done { IfOk result (λ found. ForSome (content (F.device flash.old)) (λ held.
        IsDifference (F.device flash.old).geometry.page held at bytes.now found)) }
    ensures inside { IfOk result (λ found. IfSome found (λ offset. offset < length bytes.now)) }
    ensures quiet { IsQuiet (F.device flash.old) (F.device flash.new) }
    ensures faults { (F.device flash.new).faults
        ≡ counted (is_err result) (F.device flash.old).faults }
    ensures read_faults { (F.device flash.new).read_faults
        ≡ counted (is_err result) (F.device flash.old).read_faults }
{
    let out = &mut buffer[..bytes.len()];
    match flash.read(at, out)? {
        Health::Lost => page_difference(at, bytes, buffer, flash),
        _ => Ok(first_unequal(bytes, out)),
    }
}
