ghost use Rattle.std.specs.Prelude.{◌≡◌, IfOk};
ghost use Rattle.bb_layout.specs.Layout.{fields_of};
ghost use Rattle.bb_dtbrec.specs.Dtb.{IsPattern, dtb_form, dtb_length};
ghost use Rattle.bb_dtbrec.specs.Laws.{dtb_laws};
ghost use Rattle.bb_dtbrec.specs.Layouts.{IsPatternOf, layout_pattern};

use crate::crc::HEAD_LEN;
use crate::feed::{DtbFeed, feed_record, is_whole, start_record};
use crate::of_layout::{front, strings, structure};
use crate::pack::write_record;
use crate::piece::{Piece, pieces_len};
use bb_base::{Bytes, Format, NoMemory, Passed};
use bb_layout::{FormatKind, Layout};
use std::alloc::Global;
use std::marker::Model;

/// The record that is a blob, of the areas of one layout. Clauses see its pattern.
#[derive(Drop)]
pub struct Dtb {
    front: Bytes,
    pieces: Vec<Piece>,
    area_len: usize,
}

impl Model for Dtb {
    ghost use Rattle.bb_dtbrec.specs.Dtb.{IsPattern, Pattern};

    ghost Value = { Pattern };

    ghost view = { λ d.
        record { front = d.front; pieces = d.pieces.items; area_len = d.area_len } };

    ghost invariant = { λ d.
        IsPattern (record { front = d.front; pieces = d.pieces.items; area_len = d.area_len }) };
}

impl Dtb {
    /// The format of a layout's records.
    pub fn of(alloc: Global, layout: &Layout) -> Result<Dtb, NoMemory>
        requires { layout.now.format ≡ FormatKind.Dtb }
        ensures pattern { IfOk result (λ dtb. dtb ≡ layout_pattern (fields_of layout.now)) }
        ensures blobs { IfOk result (IsPatternOf (fields_of layout.now)) }
    {
        let mut pieces = structure(alloc, layout)?;
        let strings = strings(alloc, &layout.vars)?;
        let structure_len = 24 + pieces_len(&pieces);
        let front = front(alloc, structure_len, strings.as_slice().len())?;
        pieces.push(Piece::Fixed(strings))?;
        Ok(Dtb::of_pattern(front, pieces, layout.area_len as usize))
    }

    // The format of this pattern.
    pub(crate) fn of_pattern(front: Bytes, pieces: Vec<Piece>, area_len: usize) -> Dtb
        requires { IsPattern
            (record { front = front; pieces = pieces.items; area_len = area_len }) }
        ensures { result ≡ record { front = front; pieces = pieces.items; area_len = area_len } }
    {
        Dtb {
            front,
            pieces,
            area_len,
        }
    }

    // How many bytes a record has.
    fn record_len(&self) -> usize
        ensures { result ≡ dtb_length self.now }
    {
        HEAD_LEN + pieces_len(&self.pieces)
    }
}

impl Format for Dtb {
    ghost use Rattle.bb_dtbrec.specs.Feeding.{dtb_holds};

    type Feed = DtbFeed;

    ghost form = { dtb_form };

    ghost holds = { dtb_holds };

    ghost laws = { dtb_laws };

    fn area_len(&self) -> usize {
        self.area_len
    }

    fn reach(&self) -> usize {
        self.record_len()
    }

    fn length(&self, _len: usize) -> usize {
        self.record_len()
    }

    fn pack(&self, area: &[u8], out: &mut [u8]) {
        write_record(self.front.as_slice(), &self.pieces, area, out);
    }

    fn start(&self) -> DtbFeed {
        start_record(self.front.as_slice(), &self.pieces)
    }

    fn feed(&self, feed: &mut DtbFeed, piece: &[u8], area: &mut [u8]) {
        feed_record(&self.pieces, feed, piece, area);
    }

    fn end(&self, feed: DtbFeed, area: &[u8]) -> Option<Passed> {
        if is_whole(self.front.as_slice(), &feed) {
            Some(Passed {
                len: area.len(),
                old: false,
            })
        } else {
            None
        }
    }
}
