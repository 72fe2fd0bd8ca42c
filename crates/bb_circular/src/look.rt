ghost use Rattle.std.specs.Prelude.{◌≡◌, ◌≤◌, IfOk, IfSome, IsTrue, OnErr, Some, None};
ghost use Rattle.std.specs.Prelude.{false, is_err, is_some, length, option_map, option_and_then};
ghost use Rattle.std.specs.Prelude.{if◌then◌else◌};
ghost use Rattle.std.specs.Option.{ForSome};
ghost use Rattle.bb_base.specs.Faults.{counted};
ghost use Rattle.bb_flash.specs.Device.{content, reads};
ghost use Rattle.bb_bucket.specs.Blocks.{is_block_of};
ghost use Rattle.bb_bucket.specs.Calls.{IsQuiet};
ghost use Rattle.bb_bucket.specs.Kind.{part_of};
ghost use Rattle.bb_bucket.specs.Seen.{IsLookOf};
ghost use Rattle.bb_circular.specs.Circular.{IsEntryIn, IsKeptIn, IsOfEntry, agrees_with};
ghost use Rattle.bb_circular.specs.Circular.{circular_candidate, circular_is_worn, kept_of};
ghost use Rattle.bb_circular.specs.Circular.{readable, record_of};
ghost use Rattle.bb_circular.specs.Looking.{IsKnown, worn_of};

use crate::entry::{CLOSING_LEN, closed_entry};
use crate::kept::{Entry, Kept};
use crate::last_page::find_last_page;
use bb_base::Failed;
use bb_bucket::{Block, Found, Look, NOTHING, look_with, read_pieces};
use bb_flash::Flash;

#[tactic(auto, using(bb_bucket::proofs::Quiet::quiet_joined))]
/// Looks for the record of a block, by what is kept of it or else from its end backwards. The
/// answer is what was found, and what there is to keep. The piece that is kept of the record stands
/// at the front of `memory`.
pub(crate) fn find_log<F: Flash>(
    flash: &mut F,
    block: Block,
    kept: Option<Kept>,
    memory: &mut Vec<u8>,
) -> Result<(Look, Kept), Failed>
    requires held { IsTrue (is_block_of block (F.device flash.old).geometry) }
    requires agreed { ForSome (content (F.device flash.old)) (λ image.
        IsTrue (agrees_with block.page kept (part_of block.page block.region image))) }
    requires inside { IfSome kept (IsKeptIn block) }
    requires memory { block.page ≤ length memory.old.items }
    ensures done { IfOk result (λ answer. ForSome (content (F.device flash.old)) (λ image.
        let old = part_of block.page block.region image in
        IsLookOf (circular_candidate block.page old) (circular_is_worn block.page old)
        memory.new.items answer.0)) }
    ensures len { IfOk result (λ answer.
        answer.0.found.len ≡ option_map (λ seen. seen.len) answer.0.seen) }
    ensures seen { IfOk result (λ answer. IfSome answer.0.seen
        (IsOfEntry block answer.1.newest (length memory.new.items))) }
    ensures kept { IfOk result (λ answer. ForSome (content (F.device flash.old)) (λ image.
        answer.1 ≡ kept_of block.page (part_of block.page block.region image))) }
    ensures inside { IfOk result (λ answer. IsKeptIn block answer.1) }
    ensures memory { length memory.new.items ≡ length memory.old.items }
    ensures quiet { IsQuiet (F.device flash.old) (F.device flash.new) }
    ensures faults { (F.device flash.new).faults
        ≡ counted (is_err result) (F.device flash.old).faults }
    ensures read_faults { (F.device flash.new).read_faults
        ≡ counted (is_err result) (F.device flash.old).read_faults }
{
    let kept = look_up(flash, block, kept, memory)?;
    let look = see_newest(flash, block, kept.newest, memory)?;
    Ok((look, confirm(kept, look.found)))
}

/// Where the next entry goes, and which is the newest as the block's last page says: what is kept,
/// or else what a look from the block's end backwards finds.
pub(crate) fn look_up<F: Flash>(
    flash: &mut F,
    block: Block,
    kept: Option<Kept>,
    memory: &mut [u8],
) -> Result<Kept, Failed>
    requires held { IsTrue (is_block_of block (F.device flash.old).geometry) }
    requires agreed { ForSome (content (F.device flash.old)) (λ image.
        IsTrue (agrees_with block.page kept (part_of block.page block.region image))) }
    requires inside { IfSome kept (IsKeptIn block) }
    requires memory { block.page ≤ length memory.old }
    ensures done { IfOk result (λ known. ForSome (content (F.device flash.old)) (λ image.
        IsKnown block.page (part_of block.page block.region image) known)) }
    ensures inside { IfOk result (IsKeptIn block) }
    ensures reads { IsTrue (is_some kept) →
        reads (F.device flash.new) ≡ reads (F.device flash.old) }
    ensures unknown { OnErr result (is_some kept ≡ false) }
    ensures quiet { IsQuiet (F.device flash.old) (F.device flash.new) }
    ensures faults { (F.device flash.new).faults
        ≡ counted (is_err result) (F.device flash.old).faults }
    ensures read_faults { (F.device flash.new).read_faults
        ≡ counted (is_err result) (F.device flash.old).read_faults }
{
    let _ = flash.geometry();
    match kept {
        Some(kept) => Ok(kept),
        None => find_newest(flash, block, memory),
    }
}

// The same by a look from the end.
fn find_newest<F: Flash>(flash: &mut F, block: Block, memory: &mut [u8]) -> Result<Kept, Failed>
    requires held { IsTrue (is_block_of block (F.device flash.old).geometry) }
    requires memory { block.page ≤ length memory.old }
    ensures done { IfOk result (λ known. ForSome (content (F.device flash.old)) (λ image.
        IsKnown block.page (part_of block.page block.region image) known)) }
    ensures inside { IfOk result (IsKeptIn block) }
    ensures quiet { IsQuiet (F.device flash.old) (F.device flash.new) }
    ensures faults { (F.device flash.new).faults
        ≡ counted (is_err result) (F.device flash.old).faults }
    ensures read_faults { (F.device flash.new).read_faults
        ≡ counted (is_err result) (F.device flash.old).read_faults }
{
    let page = &mut memory[..block.page as usize];
    let last = find_last_page(flash, block, page)?;
    Ok(Kept {
        next: last.pages * block.page,
        newest: closed_entry(last, page, block),
    })
}

#[tactic(auto, using(bb_bucket::proofs::Quiet::quiet_same))]
// Looks for the record of an entry, if there is one and none of its pages is Lost.
fn see_newest<F: Flash>(
    flash: &mut F,
    block: Block,
    newest: Option<Entry>,
    memory: &mut Vec<u8>,
) -> Result<Look, Failed>
    requires held { IsTrue (is_block_of block (F.device flash.old).geometry) }
    requires inside { IfSome newest (IsEntryIn block) }
    requires memory { block.page ≤ length memory.old.items }
    ensures done { IfOk result (λ look. ForSome (content (F.device flash.old)) (λ image.
        let old = part_of block.page block.region image in
        let read = option_and_then (readable block.page old) newest in
        IsLookOf (option_map (record_of old) read) (worn_of block.page old read)
        memory.new.items look)) }
    ensures len { IfOk result (λ look.
        look.found.len ≡ option_map (λ seen. seen.len) look.seen) }
    ensures seen { IfOk result (λ look. IfSome look.seen
        (IsOfEntry block newest (length memory.new.items))) }
    ensures memory { length memory.new.items ≡ length memory.old.items }
    ensures quiet { IsQuiet (F.device flash.old) (F.device flash.new) }
    ensures faults { (F.device flash.new).faults
        ≡ counted (is_err result) (F.device flash.old).faults }
    ensures read_faults { (F.device flash.new).read_faults
        ≡ counted (is_err result) (F.device flash.old).read_faults }
{
    let _ = flash.geometry();
    let Some(entry) = newest else {
        return Ok(NOTHING);
    };
    let len = entry.len - CLOSING_LEN;
    let pieces = read_pieces(flash, block.region, entry.at, len, memory)?;
    Ok(look_with(pieces.seen, pieces.health))
}

// What there is to keep, once the newest entry was read or found to be none.
fn confirm(kept: Kept, found: Found) -> Kept
    ensures { result ≡ (if is_some found.len then kept else record kept { newest = None }) }
{
    if found.len.is_some() {
        kept
    } else {
        Kept {
            newest: None,
            ..kept
        }
    }
}
