ghost use Rattle.std.specs.Prelude.{◌≡◌, ◌-◌, ◌≤◌, ◌%◌, min, IfOk, None};
ghost use Rattle.bb_circular.specs.Circular.{circular_holding};
ghost use Rattle.bb_circular.specs.CircularLaws.{circle_laws};
ghost use Rattle.bb_circular.specs.Entries.{closing_len};

use crate::entry::CLOSING_LEN;
use crate::kept::Kept;
use crate::look::find_log;
use crate::store::{void_log, write_log};
use bb_base::{Failed, NoMemory};
use bb_bucket::{Block, Bucket, Found, Seen, give_part, whole_pages};
use bb_flash::{Flash, Region};
use std::alloc::Global;
use std::marker::Model;

/// A bucket on a device that is erased in blocks, over one block that is written as a log: an entry
/// is the record, 0xFF, and 8 bytes that close it, the magic word 0x14FA2D02 and the entry's whole
/// length, both little endian (barebox User Manual, State Framework, the backend storage type
/// `circular`). It goes after the last page that isn't blank, and the block is erased only where it
/// doesn't fit there. From its last finished call on the bucket keeps where the next entry goes and
/// where the newest one stands, so that a write that follows makes no read; a write or void that
/// failed drops that. Clauses see the block, how long a record may be that is written, and what is
/// kept, of the record that was found last too.
#[derive(Debug, Drop)]
pub struct Circular {
    block: Block,
    // how long a record may be that is written
    most: u32,
    kept: Option<Kept>,
    seen: Option<Seen>,
    // pages that are looked at, entries before they are programmed, or a piece of a record that was
    // found
    memory: Vec<u8>,
}

impl Model for Circular {
    ghost use Rattle.bb_bucket.specs.Seen.{sight_in};
    ghost use Rattle.bb_circular.specs.Circular.{Circle, IsCircular};

    ghost Value = { Circle };

    ghost view = { λ circular. record {
      block = circular.block;
      most = circular.most;
      kept = circular.kept;
      sight = sight_in circular.memory.items circular.seen;
    } };

    ghost invariant = { λ circular.
        IsCircular circular.block circular.most circular.kept circular.seen circular.memory.items };
}

impl Circular {
    /// A bucket over the block in this region, on a device with this page of at least 16 bytes. The
    /// region's size is a positive multiple of the page, and its place one of its size. Records of
    /// at most `most` bytes are written to it, or of as many as there is room for. It takes memory
    /// for the entry of one, and nothing is kept yet.
    pub fn of(alloc: Global, region: Region, page: u32, most: usize) -> Result<Circular, NoMemory>
        requires least { 16 ≤ page }
        requires some { page ≤ region.size }
        requires pages { region.size % page ≡ 0 }
        requires aligned { region.at % region.size ≡ 0 }
        ensures { IfOk result (λ circular. circular ≡ record {
          block = record { region = region; page = page };
          most = min most (region.size - closing_len);
          kept = None;
          sight = None;
        }) }
    {
        let most = most.min((region.size - CLOSING_LEN) as usize) as u32;
        let len = whole_pages(page, most + CLOSING_LEN);
        let memory = vec![in alloc; 0; len as usize]?;
        let block = Block { region, page };
        Ok(Circular {
            block,
            most,
            kept: None,
            seen: None,
            memory,
        })
    }
}

impl Bucket for Circular {
    ghost holding = { circular_holding };

    ghost laws = { circle_laws };

    fn region(&self) -> Region {
        self.block.region
    }

    fn room(&self) -> u32 {
        self.block.region.size - CLOSING_LEN
    }

    fn most(&self) -> u32 {
        self.most
    }

    fn find<F: Flash>(&mut self, flash: &mut F) -> Result<Found, Failed> {
        self.seen = None;
        let answer = find_log(flash, self.block, self.kept, &mut self.memory)?;
        self.kept = Some(answer.1);
        self.seen = answer.0.seen;
        Ok(answer.0.found)
    }

    fn part<F: Flash>(&mut self, flash: &mut F, from: u32, out: &mut [u8]) -> Result<(), Failed> {
        let Some(seen) = self.seen else {
            unreachable!()
        };
        give_part(flash, self.block.region, seen, &self.memory, from, out)
    }

    fn write<F: Flash>(&mut self, flash: &mut F, rec: &[u8]) -> Result<(), Failed> {
        let kept = self.kept;
        self.kept = None;
        self.seen = None;
        let written = write_log(flash, self.block, kept, &mut self.memory, rec)?;
        self.kept = Some(written);
        Ok(())
    }

    fn void<F: Flash>(&mut self, flash: &mut F) -> Result<(), Failed> {
        self.kept = None;
        self.seen = None;
        let kept = void_log(flash, self.block)?;
        self.kept = Some(kept);
        Ok(())
    }
}
