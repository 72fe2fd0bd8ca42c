ghost use Rattle.std.specs.Prelude.{◌≡◌, ◌+◌, ◌≤◌, IsTrue, option_map, option_to_list};
ghost use Rattle.bb_bucket.specs.Blocks.{is_block_of};
ghost use Rattle.bb_bucket.specs.Calls.{Agrees};
ghost use Rattle.bb_bucket.specs.OneBlock.{one_block_kind};
ghost use Rattle.bb_bucket.specs.Stride.{stride_kind};
ghost use Rattle.bb_bucket.specs.Front.{stride_header_len};
ghost use Rattle.bb_copies.specs.Passing.{passing_of};
ghost use Rattle.bb_state.specs.Kinds.{any_form};
ghost use Rattle.bb_history.specs.History.{IsRegionOf, ReadsHistory, region_areas};
ghost use Rattle.bb_history.specs.Reading.{HasPageRoom, shown_text};
ghost use Rattle.bb_layout.specs.Layout.{fields_of};

use crate::fault::HistoryFault;
use crate::lines::add_single;
use crate::log::read_log;
use crate::room::PageRoom;
use bb_base::{Bytes, Format};
use bb_bucket::{Block, Bucket, OneBlock, Stride};
use bb_copies::{PassingCopy, read_copy};
use bb_flash::{Flash, Region};
use bb_layout::{Layout, Storage};
use bb_state::AnyFormat;
use std::alloc::Global;

/// Adds the history of a region, which is that of the copy of this number.
pub(crate) fn read_region<F: Flash>(
    alloc: Global,
    flash: &mut F,
    region: Region,
    layout: &Layout,
    format: &AnyFormat,
    copy: usize,
    memory: &mut PageRoom,
    out: &mut Bytes,
) -> Result<(), HistoryFault>
    requires region { IsRegionOf (F.device flash.old).geometry layout.now.storage region }
    requires memory { HasPageRoom (F.device flash.old).geometry.page (any_form format.now).area_len
        memory.old }
    ensures reads { ReadsHistory (λ image. shown_text (fields_of layout.now) copy
        (region_areas (any_form format.now) layout.now.storage (F.device flash.old).geometry.page
        region image)) (F.device flash.old) (F.device flash.new) out.old out.new result }
    ensures memory { HasPageRoom (F.device flash.old).geometry.page (any_form format.now).area_len
        memory.new }
{
    let page = flash.geometry().page;
    let block = Block { region, page };
    match layout.storage {
        Storage::Circular => read_log(alloc, flash, block, layout, format, copy, memory, out),
        Storage::OneBlock => read_block(alloc, flash, block, layout, format, copy, memory, out),
        Storage::Stride(_) => read_stride(alloc, flash, region, layout, format, copy, memory, out),
    }
}

// Adds the history of a block that holds one record.
fn read_block<M: Format, F: Flash>(
    alloc: Global,
    flash: &mut F,
    block: Block,
    layout: &Layout,
    format: &M,
    copy: usize,
    memory: &mut PageRoom,
    out: &mut Bytes,
) -> Result<(), HistoryFault>
    requires held { IsTrue (is_block_of block (F.device flash.old).geometry) }
    requires memory { HasPageRoom (F.device flash.old).geometry.page (M.form format.now).area_len
        memory.old }
    ensures reads { ReadsHistory (λ image. shown_text (fields_of layout.now) copy
        (option_to_list (passing_of (M.form format.now) (F.device flash.old).geometry.page
        (one_block_kind block) image)))
        (F.device flash.old) (F.device flash.new) out.old out.new result }
    ensures memory { HasPageRoom (F.device flash.old).geometry.page (M.form format.now).area_len
        memory.new }
{
    let _ = flash.geometry();
    let most = format.length(format.area_len());
    let mut bucket = OneBlock::of(alloc, block.region, block.page, most)?;
    read_single(alloc, flash, &mut bucket, layout, format, copy, memory, out)
}

// Adds the history of a stride.
fn read_stride<M: Format, F: Flash>(
    alloc: Global,
    flash: &mut F,
    region: Region,
    layout: &Layout,
    format: &M,
    copy: usize,
    memory: &mut PageRoom,
    out: &mut Bytes,
) -> Result<(), HistoryFault>
    requires serves { IsTrue ((stride_kind region).serves (F.device flash.old).geometry) }
    requires room { stride_header_len + 1 ≤ region.size }
    requires memory { HasPageRoom (F.device flash.old).geometry.page (M.form format.now).area_len
        memory.old }
    ensures reads { ReadsHistory (λ image. shown_text (fields_of layout.now) copy
        (option_to_list (passing_of (M.form format.now) (F.device flash.old).geometry.page
        (stride_kind region) image)))
        (F.device flash.old) (F.device flash.new) out.old out.new result }
    ensures memory { HasPageRoom (F.device flash.old).geometry.page (M.form format.now).area_len
        memory.new }
{
    let _ = flash.geometry();
    let most = format.length(format.area_len());
    let mut bucket = Stride::of(alloc, region, most)?;
    read_single(alloc, flash, &mut bucket, layout, format, copy, memory, out)
}

// Adds the history of a region that holds one record, by the bucket in it.
fn read_single<B: Bucket, M: Format, F: Flash>(
    alloc: Global,
    flash: &mut F,
    bucket: &mut B,
    layout: &Layout,
    format: &M,
    copy: usize,
    memory: &mut PageRoom,
    out: &mut Bytes,
) -> Result<(), HistoryFault>
    requires serves { IsTrue ((B.holding bucket.old).kind.serves (F.device flash.old).geometry) }
    requires agreed { Agrees (B.holding bucket.old) (F.device flash.old) }
    requires memory { HasPageRoom (F.device flash.old).geometry.page (M.form format.now).area_len
        memory.old }
    ensures reads { ReadsHistory (λ image. shown_text (fields_of layout.now) copy
        (option_to_list (passing_of (M.form format.now) (F.device flash.old).geometry.page
        (B.holding bucket.old).kind image)))
        (F.device flash.old) (F.device flash.new) out.old out.new result }
    ensures memory { HasPageRoom (F.device flash.old).geometry.page (M.form format.now).area_len
        memory.new }
{
    let passing = read_copy(bucket, format, flash, &mut memory.piece, &mut memory.area)?;
    add_single(alloc, layout, copy, len_of(passing), &memory.area, out)?;
    Ok(())
}

// How many bytes the area has that a copy passes as.
fn len_of(passing: Option<PassingCopy>) -> Option<usize>
    ensures { result ≡ option_map (λ found. found.len) passing }
{
    match passing {
        Some(found) => Some(found.len),
        None => None,
    }
}
