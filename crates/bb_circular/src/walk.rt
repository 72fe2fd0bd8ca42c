ghost use Rattle.std.specs.Prelude.{◌≡◌, ◌+◌, ◌*◌, ◌≤◌, ◌/◌, IfOk, IfSome, IsTrue, is_err};
ghost use Rattle.std.specs.Prelude.{length};
ghost use Rattle.std.specs.Option.{ForSome};
ghost use Rattle.bb_base.specs.Faults.{counted};
ghost use Rattle.bb_flash.specs.Device.{content};
ghost use Rattle.bb_bucket.specs.Blocks.{is_block_of};
ghost use Rattle.bb_bucket.specs.Calls.{IsQuiet};
ghost use Rattle.bb_bucket.specs.Kind.{part_of};
ghost use Rattle.bb_circular.specs.Circular.{IsEntryIn};
ghost use Rattle.bb_circular.specs.Looking.{IsEndOf};

use crate::entry::closed_entry;
use crate::kept::Entry;
use crate::last_page::LastPage;
use bb_base::Failed;
use bb_bucket::{Block, read_part};
use bb_flash::Flash;

/// The entry that ends in the last of a block's first `pages` pages, at least one, as this page's
/// closing words say: its other pages aren't looked at. There is none exactly where the page is
/// Lost or its closing words end no entry. It makes one read, into `page`, which has the page's
/// size and then holds that page, where it ends an entry.
pub fn entry_before<F: Flash>(
    flash: &mut F,
    block: Block,
    pages: u32,
    page: &mut [u8],
) -> Result<Option<Entry>, Failed>
    requires held { IsTrue (is_block_of block (F.device flash.old).geometry) }
    requires some { 1 ≤ pages }
    requires inside { pages ≤ block.region.size / block.page }
    requires page { length page.old ≡ block.page }
    ensures done { IfOk result (λ entry. ForSome (content (F.device flash.old)) (λ image.
        IsEndOf block.page pages (part_of block.page block.region image) page.new entry)) }
    ensures inside { IfOk result (λ entry. IfSome entry (IsEntryIn block)) }
    ensures ends { IfOk result (λ entry. IfSome entry (λ e.
        e.at + e.len ≡ pages * block.page)) }
    ensures page { length page.new ≡ length page.old }
    ensures quiet { IsQuiet (F.device flash.old) (F.device flash.new) }
    ensures faults { (F.device flash.new).faults
        ≡ counted (is_err result) (F.device flash.old).faults }
    ensures read_faults { (F.device flash.new).read_faults
        ≡ counted (is_err result) (F.device flash.old).read_faults }
{
    let _ = flash.geometry();
    let health = read_part(flash, block.region, (pages - 1) * block.page, page)?;
    Ok(closed_entry(LastPage { pages, health }, page, block))
}
