ghost use Rattle.std.specs.Prelude.{◌≡◌, ◌≤◌, ◌/◌, IfOk, IsTrue, OnOk};
ghost use Rattle.std.specs.Option.{ForSome};
ghost use Rattle.bb_base.specs.Faults.{counted};
ghost use Rattle.bb_flash.specs.Device.{content};
ghost use Rattle.bb_bucket.specs.Blocks.{is_block_of};
ghost use Rattle.bb_bucket.specs.Calls.{IsQuiet};
ghost use Rattle.bb_bucket.specs.Kind.{part_of};
ghost use Rattle.bb_history.specs.Entries.{log_areas};
ghost use Rattle.bb_history.specs.History.{ReadsHistory, failed_to_read};
ghost use Rattle.bb_history.specs.Reading.{ArePlaces, AreWithin, HasPageRoom, kept_places};
ghost use Rattle.bb_history.specs.Reading.{pages_left, passes_in, places_text, shown_text};
ghost use Rattle.bb_layout.specs.Layout.{fields_of};

use crate::entry::{Ended, look_at};
use crate::fault::HistoryFault;
use crate::lines::{add_count, add_ended};
use crate::places::Places;
use crate::room::PageRoom;
use bb_base::{Bytes, Format, NoMemory};
use bb_bucket::Block;
use bb_flash::Flash;
use bb_layout::Layout;
use std::alloc::Global;

/// Adds the history of a block that is written as a log: it is read from its end backwards, once,
/// for the entries that pass, and these are read again, forwards, for their lines.
pub(crate) fn read_log<M: Format, F: Flash>(
    alloc: Global,
    flash: &mut F,
    block: Block,
    layout: &Layout,
    format: &M,
    copy: usize,
    memory: &mut PageRoom,
    out: &mut Bytes,
) -> Result<(), HistoryFault>
    requires held { IsTrue (is_block_of block (F.device flash.old).geometry) }
    requires memory { HasPageRoom block.page (M.form format.now).area_len memory.old }
    ensures reads { ReadsHistory (λ image. shown_text (fields_of layout.now) copy
        (log_areas (M.form format.now) block.page (part_of block.page block.region image)))
        (F.device flash.old) (F.device flash.new) out.old out.new result }
    ensures memory { HasPageRoom block.page (M.form format.now).area_len memory.new }
{
    let places = find_places(alloc, flash, block, format, memory)?;
    add_count(alloc, copy, places.len(), out)?;
    add_entries(alloc, flash, block, layout, format, &places, memory, out)
}

// The places of the entries that pass. Of an entry that is found, no page is looked at alone; of
// one that is torn or has a Lost page, each.
#[tactic(auto, using(bb_bucket::proofs::Quiet::quiet_joined))]
fn find_places<M: Format, F: Flash>(
    alloc: Global,
    flash: &mut F,
    block: Block,
    format: &M,
    memory: &mut PageRoom,
) -> Result<Places, HistoryFault>
    requires held { IsTrue (is_block_of block (F.device flash.old).geometry) }
    requires memory { HasPageRoom block.page (M.form format.now).area_len memory.old }
    ensures found { IfOk result (λ places. ForSome (content (F.device flash.old)) (λ image.
        ArePlaces (M.form format.now) block.page (part_of block.page block.region image)
        places)) }
    ensures within { IfOk result (AreWithin (block.region.size / block.page)) }
    ensures memory { HasPageRoom block.page (M.form format.now).area_len memory.new }
    ensures quiet { IsQuiet (F.device flash.old) (F.device flash.new) }
    ensures faults { (F.device flash.new).faults
        ≡ counted (failed_to_read result) (F.device flash.old).faults }
    ensures read_faults { (F.device flash.new).read_faults
        ≡ counted (failed_to_read result) (F.device flash.old).read_faults }
{
    let _ = flash.geometry();
    let mut places = Places::none(alloc);
    let mut pages = block.region.size / block.page;
    while pages > 0 {
        let ended = look_at(flash, block, format, pages, memory)?;
        keep(&mut places, pages, ended)?;
        pages = pages_left(pages, ended);
    }
    Ok(places)
}

// Keeps the place of an entry that passes.
fn keep(places: &mut Places, pages: u32, ended: Option<Ended>) -> Result<(), NoMemory>
    ensures { OnOk result (places.new ≡ kept_places pages ended places.old) }
{
    if !passes(ended) {
        return Ok(());
    }
    places.push(pages)
}

// Whether there is an entry that passes.
fn passes(ended: Option<Ended>) -> bool
    ensures { result ≡ passes_in ended }
{
    match ended {
        Some(ended) => ended.passed.is_some(),
        None => false,
    }
}

// How many pages are to be looked at yet, once the last of so many was.
fn pages_left(pages: u32, ended: Option<Ended>) -> u32
    requires { 1 ≤ pages }
    ensures { result ≡ pages_left pages ended }
{
    match ended {
        Some(ended) => ended.before,
        None => pages - 1,
    }
}

// Adds the lines of the entries at these places, oldest first.
#[tactic(auto, using(bb_bucket::proofs::Quiet::quiet_joined))]
fn add_entries<M: Format, F: Flash>(
    alloc: Global,
    flash: &mut F,
    block: Block,
    layout: &Layout,
    format: &M,
    places: &Places,
    memory: &mut PageRoom,
    out: &mut Bytes,
) -> Result<(), HistoryFault>
    requires held { IsTrue (is_block_of block (F.device flash.old).geometry) }
    requires within { AreWithin (block.region.size / block.page) places.now }
    requires memory { HasPageRoom block.page (M.form format.now).area_len memory.old }
    ensures reads { ReadsHistory (λ image. places_text (fields_of layout.now) (M.form format.now)
        block.page (part_of block.page block.region image) 1 places.now)
        (F.device flash.old) (F.device flash.new) out.old out.new result }
    ensures memory { HasPageRoom block.page (M.form format.now).area_len memory.new }
{
    let _ = flash.geometry();
    for number in 0..places.len() {
        let place = places.at(number);
        let ended = look_at(flash, block, format, place, memory)?;
        add_ended(alloc, layout, number + 1, ended, &memory.area, out)?;
    }
    Ok(())
}
