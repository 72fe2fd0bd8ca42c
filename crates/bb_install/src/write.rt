ghost use Rattle.std.specs.Prelude.{◌≡◌, ◌+◌, ◌≤◌, ◌<◌, ◌==◌, IfErr, OnOk, length};
ghost use Rattle.std.specs.Prelude.{if◌then◌else◌};
ghost use Rattle.bb_bucket.specs.Blocks.{filled_to};
ghost use Rattle.bb_install.specs.Ranges.{program_len};
ghost use Rattle.bb_install.specs.Slot.{HasPlace};
ghost use Rattle.bb_install.specs.Writing.{IsInstalled, SlotCalls, StopsAt};

use crate::SlotFault;
use crate::erase::erase_slot;
use crate::program::{program_pages, program_part};
use bb_flash::{Flash, Geometry, Region};

// In bytes: what is programmed at once on a device without blocks.
const PIECE_LEN: usize = 65_536;

/// Writes an image to a slot. On a device with blocks all blocks of the slot are erased first. Then
/// the image is programmed in rising order, one program for each block, or for 65,536 bytes where
/// there are no blocks. A last page that the image fills only in part is filled up with 0xFF in
/// `page`, which is as long as the device's page, and programmed by itself. Where a call fails the
/// answer is its place, and no other follows. It takes no memory.
pub fn write_slot<F: Flash>(
    slot: Region,
    image: &[u8],
    page: &mut [u8],
    flash: &mut F,
) -> Result<(), SlotFault>
    requires place { HasPlace (F.device flash.old).geometry slot }
    requires fits { length image.now ≤ slot.size }
    requires page { length page.old ≡ (F.device flash.old).geometry.page }
    ensures done { OnOk result
        (IsInstalled slot image.now (F.device flash.old) (F.device flash.new)) }
    ensures failed { IfErr result (λ fault.
        StopsAt slot image.now fault.at (F.device flash.old) (F.device flash.new)) }
    ensures calls { SlotCalls result slot (F.device flash.old) (F.device flash.new) }
{
    let geometry = flash.geometry();
    erase_slot(slot, flash)?;
    let (pages, rest) = image.split_at(image.len() - image.len() % page.len());
    program_pages(slot, pages, program_len(geometry), flash)?;
    if rest.is_empty() {
        return Ok(());
    }
    fill_page(rest, page);
    program_part(slot, pages.len() as u32, page, flash)
}

// How many bytes are programmed at once.
fn program_len(geometry: Geometry) -> usize
    ensures { result ≡ program_len geometry }
{
    if geometry.block == 0 {
        PIECE_LEN
    } else {
        geometry.block as usize
    }
}

// Writes bytes to the front of a page, and 0xFF after them.
fn fill_page(bytes: &[u8], page: &mut [u8])
    requires { length bytes.now ≤ length page.old }
    ensures { page.new ≡ filled_to (length page.old) bytes.now }
{
    let (front, filling) = page.split_at_mut(bytes.len());
    front.copy_from_slice(bytes);
    filling.fill(0xFF);
}
