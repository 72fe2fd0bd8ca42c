ghost use Rattle.std.specs.Prelude.{◌≡◌, ◌≤◌, ◌<◌, ◌-◌, ◌/◌, IfOk, IfSome, IsTrue, is_err};
ghost use Rattle.std.specs.Prelude.{length, option_map, take};
ghost use Rattle.std.specs.Option.{ForSome};
ghost use Rattle.bb_base.specs.Faults.{counted};
ghost use Rattle.bb_flash.specs.Device.{content};
ghost use Rattle.bb_bucket.specs.Blocks.{is_block_of};
ghost use Rattle.bb_bucket.specs.Calls.{IsQuiet};
ghost use Rattle.bb_bucket.specs.Front.{is_lost};
ghost use Rattle.bb_bucket.specs.Kind.{part_of};
ghost use Rattle.bb_circular.specs.Circular.{IsEntryIn, readable};
ghost use Rattle.bb_circular.specs.Entries.{closing_len};
ghost use Rattle.bb_history.specs.Reading.{FitsRoom, HasPageRoom, IsEndedAt, IsEndedBy};
ghost use Rattle.bb_history.specs.Reading.{IsLastRead};

use crate::room::PageRoom;
use bb_base::{Failed, Format, Passed};
use bb_bucket::{Block, read_part};
use bb_circular::{CLOSING_LEN, Entry, entry_before};
use bb_flash::{Flash, Health};

/// An entry of a log that was read.
#[derive(Clone, Copy, Debug, PartialEq, Eq)]
pub(crate) struct Ended {
    /// How many pages of its block stand before it.
    pub before: u32,
    /// How many bytes the area has that its record passes as, if it passes as one.
    pub passed: Option<usize>,
}

/// The entry that ends with a block's first `pages` pages, at least one, if one does. The area that
/// its record passes is then in front of that in `memory`. Each of its pages is read once, from the
/// first on, but for the last one, which is read before them; a page that is Lost ends that.
#[tactic(auto, using(bb_bucket::proofs::Quiet::quiet_joined))]
pub(crate) fn look_at<M: Format, F: Flash>(
    flash: &mut F,
    block: Block,
    format: &M,
    pages: u32,
    memory: &mut PageRoom,
) -> Result<Option<Ended>, Failed>
    requires held { IsTrue (is_block_of block (F.device flash.old).geometry) }
    requires some { 1 ≤ pages }
    requires inside { pages ≤ block.region.size / block.page }
    requires memory { HasPageRoom block.page (M.form format.now).area_len memory.old }
    ensures done { IfOk result (λ ended. ForSome (content (F.device flash.old)) (λ image.
        IsEndedAt (M.form format.now) block.page (part_of block.page block.region image) pages
        memory.new.area.items ended)) }
    ensures before { IfOk result (λ ended. IfSome ended (λ e. e.before < pages)) }
    ensures fits { IfOk result (λ ended.
        IfSome ended (FitsRoom (M.form format.now).area_len)) }
    ensures memory { HasPageRoom block.page (M.form format.now).area_len memory.new }
    ensures quiet { IsQuiet (F.device flash.old) (F.device flash.new) }
    ensures faults { (F.device flash.new).faults
        ≡ counted (is_err result) (F.device flash.old).faults }
    ensures read_faults { (F.device flash.new).read_faults
        ≡ counted (is_err result) (F.device flash.old).read_faults }
{
    let closed = entry_before(flash, block, pages, &mut memory.page)?;
    let Some(entry) = closed else {
        return Ok(None);
    };
    check_entry(
        flash,
        block,
        entry,
        format,
        &memory.page,
        &mut memory.piece,
        &mut memory.area,
    )
}

// Reads and checks an entry whose last page was read: none where another page of it is Lost.
#[tactic(auto, using(bb_bucket::proofs::Quiet::quiet_joined))]
fn check_entry<M: Format, F: Flash>(
    flash: &mut F,
    block: Block,
    entry: Entry,
    format: &M,
    page: &[u8],
    piece: &mut [u8],
    area: &mut [u8],
) -> Result<Option<Ended>, Failed>
    requires held { IsTrue (is_block_of block (F.device flash.old).geometry) }
    requires inside { IsEntryIn block entry }
    requires page { length page.now ≡ block.page }
    requires last { ForSome (content (F.device flash.old)) (λ image.
        IsLastRead block.page (part_of block.page block.region image) entry page.now) }
    requires piece { 0 < length piece.old }
    requires area { length area.old ≡ (M.form format.now).area_len }
    ensures done { IfOk result (λ ended. ForSome (content (F.device flash.old)) (λ image.
        let old = part_of block.page block.region image in
        IsEndedBy (M.form format.now) block.page old (readable block.page old entry) area.new
        ended)) }
    ensures before { IfOk result (λ ended. IfSome ended (λ e. e.before ≡ entry.at / block.page)) }
    ensures fits { IfOk result (λ ended.
        IfSome ended (FitsRoom (M.form format.now).area_len)) }
    ensures quiet { IsQuiet (F.device flash.old) (F.device flash.new) }
    ensures faults { (F.device flash.new).faults
        ≡ counted (is_err result) (F.device flash.old).faults }
    ensures read_faults { (F.device flash.new).read_faults
        ≡ counted (is_err result) (F.device flash.old).read_faults }
    ensures piece { length piece.new ≡ length piece.old }
    ensures area { length area.new ≡ length area.old }
{
    let _ = flash.geometry();
    let last = entry.len - block.page;
    let mut feed = format.start();
    let mut from = 0;
    while from < last {
        let count = piece.len().min((last - from) as usize);
        let next = &mut piece[..count];
        let health = read_part(flash, block.region, entry.at + from, next)?;
        if is_lost(health) {
            return Ok(None);
        }
        format.feed(&mut feed, next, area);
        from += count as u32;
    }
    format.feed(&mut feed, record_end(block, page), area);
    let passed = len_of(format.end(feed, area));
    let before = entry.at / block.page;
    Ok(Some(Ended { before, passed }))
}

// How many bytes the area has that a record passes as.
fn len_of(passed: Option<Passed>) -> Option<usize>
    ensures { result ≡ option_map (λ p. p.len) passed }
{
    match passed {
        Some(passed) => Some(passed.len),
        None => None,
    }
}

// The bytes of the record in the last page of an entry.
fn record_end(block: Block, page: &[u8]) -> &[u8]
    requires least { 16 ≤ block.page }
    requires page { length page.now ≡ block.page }
    ensures { result.now ≡ take (block.page - closing_len) page.now }
{
    &page[..(block.page - CLOSING_LEN) as usize]
}

fn is_lost(health: Health) -> bool
    ensures { result ≡ is_lost health }
{
    matches!(health, Health::Lost)
}
