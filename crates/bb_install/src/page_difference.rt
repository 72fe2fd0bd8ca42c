ghost use Rattle.std.specs.Prelude.{◌≡◌, ◌+◌, ◌≤◌, ◌%◌, ◌^◌, ◌<◌, IfOk, IfSome, length};
ghost use Rattle.std.specs.Prelude.{is_err};
ghost use Rattle.std.specs.Option.{ForSome};
ghost use Rattle.bb_base.specs.Faults.{counted};
ghost use Rattle.bb_flash.specs.Device.{content};
ghost use Rattle.bb_bucket.specs.Calls.{IsQuiet};
ghost use Rattle.bb_install.specs.Compared.{IsDifference, IsUnequal};

use bb_base::Failed;
use bb_flash::{Flash, Health};

/// The first difference of bytes and of those at a place of the device, read page by page into the
/// front of `buffer`.
pub(crate) fn page_difference<F: Flash>(
    at: u32,
    bytes: &[u8],
    buffer: &mut [u8],
    flash: &mut F,
) -> Result<Option<u32>, Failed>
    requires inside { at + length bytes.now ≤ (F.device flash.old).geometry.size }
    requires aligned { at % (F.device flash.old).geometry.page ≡ 0 }
    requires page { (F.device flash.old).geometry.page ≤ length buffer.old }
    ensures done { IfOk result (λ found. ForSome (content (F.device flash.old)) (λ held.
        IsDifference (F.device flash.old).geometry.page held at bytes.now found)) }
    ensures inside { IfOk result (λ found. IfSome found (λ offset. offset < length bytes.now)) }
    ensures quiet { IsQuiet (F.device flash.old) (F.device flash.new) }
    ensures faults { (F.device flash.new).faults
        ≡ counted (is_err result) (F.device flash.old).faults }
    ensures read_faults { (F.device flash.new).read_faults
        ≡ counted (is_err result) (F.device flash.old).read_faults }
{
    let page = flash.geometry().page as usize;
    let mut done = 0;
    while done < bytes.len() {
        let end = bytes.len().min(done + page);
        let part = &bytes[done..end];
        if let Some(offset) = difference_in_page(at + done as u32, part, buffer, flash)? {
            return Ok(Some(done as u32 + offset));
        }
        done = end;
    }
    Ok(None)
}

// The first difference of bytes of one page, and of those at a place where a page begins.
fn difference_in_page<F: Flash>(
    at: u32,
    bytes: &[u8],
    buffer: &mut [u8],
    flash: &mut F,
) -> Result<Option<u32>, Failed>
    requires inside { at + length bytes.now ≤ (F.device flash.old).geometry.size }
    requires aligned { at % (F.device flash.old).geometry.page ≡ 0 }
    requires some { 0 < length bytes.now }
    requires one { length bytes.now ≤ (F.device flash.old).geometry.page }
    requires room { length bytes.now ≤ length buffer.old }
    ensures done { IfOk result (λ found. ForSome (content (F.device flash.old)) (λ held.
        IsDifference (F.device flash.old).geometry.page held at bytes.now found)) }
    ensures inside { IfOk result (λ found. IfSome found (λ offset. offset < length bytes.now)) }
    ensures quiet { IsQuiet (F.device flash.old) (F.device flash.new) }
    ensures faults { (F.device flash.new).faults
        ≡ counted (is_err result) (F.device flash.old).faults }
    ensures read_faults { (F.device flash.new).read_faults
        ≡ counted (is_err result) (F.device flash.old).read_faults }
{
    let out = &mut buffer[..bytes.len()];
    match flash.read(at, out)? {
        Health::Lost => Ok(Some(0)),
        _ => Ok(first_unequal(bytes, out)),
    }
}

/// The first place at which two texts of one length differ.
pub(crate) fn first_unequal(bytes: &[u8], read: &[u8]) -> Option<u32>
    requires same { length read.now ≡ length bytes.now }
    requires small { length bytes.now < 2 ^ 32 }
    ensures { IsUnequal bytes.now read.now result }
{
    for place in 0..bytes.len() {
        if bytes[place] != read[place] {
            return Some(place as u32);
        }
    }
    None
}
