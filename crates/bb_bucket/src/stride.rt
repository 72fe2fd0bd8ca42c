ghost use Rattle.std.specs.Prelude.{◌≡◌, ◌+◌, ◌-◌, ◌≤◌, min, IfOk, None};
ghost use Rattle.bb_bucket.specs.Front.{stride_header_len};
ghost use Rattle.bb_bucket.specs.Stride.{stride_holding};
ghost use Rattle.bb_bucket.specs.StrideLaws.{stride_laws};

use crate::entry::FRONT_LEN;
use crate::look::{find_record, front_part};
use crate::seen::Seen;
use crate::store::{void_record, write_record};
use crate::{Bucket, Found};
use bb_base::{Failed, NoMemory};
use bb_flash::{Flash, Region};
use std::alloc::Global;
use std::marker::Model;

/// A bucket on a device that is overwritten in place. Its region begins with 8 bytes in front, the
/// magic word 0x2354FDF3 and the record's length, both little endian, and the record follows
/// (barebox User Manual, State Framework, the backend storage type `direct`). It is written by one
/// program. Clauses see the region, how long a record may be that is written, and what is kept of
/// the record that was found last.
#[derive(Debug, Drop)]
pub struct Stride {
    region: Region,
    // how long a record may be that is written
    most: u32,
    // front and record, before they are programmed, or a piece of a record that was found
    entry: Vec<u8>,
    seen: Option<Seen>,
}

impl Model for Stride {
    ghost use Rattle.bb_bucket.specs.Seen.{sight_in};
    ghost use Rattle.bb_bucket.specs.Stride.{IsStride, SeenStride};

    ghost Value = { SeenStride };

    ghost view = { λ stride. record {
      region = stride.region;
      most = stride.most;
      sight = sight_in stride.entry.items stride.seen;
    } };

    ghost invariant = { λ stride.
        IsStride stride.region stride.most stride.entry.items stride.seen };
}

impl Stride {
    /// A stride in this region, which has a byte more than a front at least. Records of at most
    /// `most` bytes are written to it, or of as many as there is room for. It takes memory for one
    /// and its front.
    pub fn of(alloc: Global, region: Region, most: usize) -> Result<Stride, NoMemory>
        requires { stride_header_len + 1 ≤ region.size }
        ensures { IfOk result (λ stride. stride ≡ record {
          region = region;
          most = min most (region.size - stride_header_len);
          sight = None;
        }) }
    {
        let most = most.min((region.size - FRONT_LEN) as usize) as u32;
        let entry = vec![in alloc; 0; (FRONT_LEN + most) as usize]?;
        Ok(Stride {
            region,
            most,
            entry,
            seen: None,
        })
    }
}

impl Bucket for Stride {
    ghost holding = { stride_holding };

    ghost laws = { stride_laws };

    fn region(&self) -> Region {
        self.region
    }

    fn room(&self) -> u32 {
        self.region.size - FRONT_LEN
    }

    fn most(&self) -> u32 {
        self.most
    }

    fn find<F: Flash>(&mut self, flash: &mut F) -> Result<Found, Failed> {
        self.seen = None;
        let look = find_record(flash, self.region, &mut self.entry)?;
        self.seen = look.seen;
        Ok(look.found)
    }

    fn part<F: Flash>(&mut self, flash: &mut F, from: u32, out: &mut [u8]) -> Result<(), Failed> {
        front_part(flash, self.region, self.seen, &self.entry, from, out)
    }

    fn write<F: Flash>(&mut self, flash: &mut F, rec: &[u8]) -> Result<(), Failed> {
        self.seen = None;
        write_record(flash, self.region, &mut self.entry, rec)
    }

    fn void<F: Flash>(&mut self, flash: &mut F) -> Result<(), Failed> {
        self.seen = None;
        void_record(flash, self.region)
    }
}
