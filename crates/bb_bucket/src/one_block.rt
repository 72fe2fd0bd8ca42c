ghost use Rattle.std.specs.Prelude.{◌≡◌, ◌-◌, ◌≤◌, ◌%◌, min, IfOk, None};
ghost use Rattle.bb_bucket.specs.Front.{stride_header_len};
ghost use Rattle.bb_bucket.specs.OneBlock.{one_block_holding};
ghost use Rattle.bb_bucket.specs.OneBlockLaws.{one_block_laws};

use crate::block_store::{void_block, write_block};
use crate::entry::{FRONT_LEN, whole_pages};
use crate::look::{find_record, front_part};
use crate::seen::Seen;
use crate::{Block, Bucket, Found};
use bb_base::{Failed, NoMemory};
use bb_flash::{Flash, Region};
use std::alloc::Global;
use std::marker::Model;

/// A bucket on a device that is erased in blocks, over one block. It begins with 8 bytes in front,
/// the magic word 0x2354FDF3 and the record's length, both little endian, the record follows, and
/// 0xFF fills the last page (barebox User Manual, State Framework, the backend storage type
/// `noncircular`). Each write erases the block first. Clauses see the
/// block, how long a record may be that is written, and what is kept of the record that was found
/// last.
#[derive(Debug, Drop)]
pub struct OneBlock {
    block: Block,
    // how long a record may be that is written
    most: u32,
    // front and record, before they are programmed, or a piece of a record that was found
    entry: Vec<u8>,
    seen: Option<Seen>,
}

impl Model for OneBlock {
    ghost use Rattle.bb_bucket.specs.OneBlock.{IsOneBlock, SeenBlock};
    ghost use Rattle.bb_bucket.specs.Seen.{sight_in};

    ghost Value = { SeenBlock };

    ghost view = { λ one. record {
      block = one.block;
      most = one.most;
      sight = sight_in one.entry.items one.seen;
    } };

    ghost invariant = { λ one. IsOneBlock one.block one.most one.entry.items one.seen };
}

impl OneBlock {
    /// A bucket over the block in this region, on a device with this page of at least 16 bytes. The
    /// region's size is a positive multiple of the page, and its place one of its size. Records of
    /// at most `most` bytes are written to it, or of as many as there is room for. It takes memory
    /// for the pages of one and its front.
    pub fn of(alloc: Global, region: Region, page: u32, most: usize) -> Result<OneBlock, NoMemory>
        requires least { 16 ≤ page }
        requires some { page ≤ region.size }
        requires pages { region.size % page ≡ 0 }
        requires aligned { region.at % region.size ≡ 0 }
        ensures { IfOk result (λ one. one ≡ record {
          block = record { region = region; page = page };
          most = min most (region.size - stride_header_len);
          sight = None;
        }) }
    {
        let most = most.min((region.size - FRONT_LEN) as usize) as u32;
        let len = whole_pages(page, FRONT_LEN + most);
        let entry = vec![in alloc; 0; len as usize]?;
        let block = Block { region, page };
        Ok(OneBlock {
            block,
            most,
            entry,
            seen: None,
        })
    }
}

impl Bucket for OneBlock {
    ghost holding = { one_block_holding };

    ghost laws = { one_block_laws };

    fn region(&self) -> Region {
        self.block.region
    }

    fn room(&self) -> u32 {
        self.block.region.size - FRONT_LEN
    }

    fn most(&self) -> u32 {
        self.most
    }

    fn find<F: Flash>(&mut self, flash: &mut F) -> Result<Found, Failed> {
        self.seen = None;
        let look = find_record(flash, self.block.region, &mut self.entry)?;
        self.seen = look.seen;
        Ok(look.found)
    }

    fn part<F: Flash>(&mut self, flash: &mut F, from: u32, out: &mut [u8]) -> Result<(), Failed> {
        front_part(flash, self.block.region, self.seen, &self.entry, from, out)
    }

    fn write<F: Flash>(&mut self, flash: &mut F, rec: &[u8]) -> Result<(), Failed> {
        self.seen = None;
        write_block(flash, self.block, &mut self.entry, rec)
    }

    fn void<F: Flash>(&mut self, flash: &mut F) -> Result<(), Failed> {
        self.seen = None;
        void_block(flash, self.block)
    }
}
