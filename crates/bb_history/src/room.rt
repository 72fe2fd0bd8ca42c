ghost use Rattle.std.specs.Prelude.{◌≤◌, IfOk};
ghost use Rattle.bb_history.specs.Reading.{HasPageRoom};

use bb_base::NoMemory;
use std::alloc::Global;

// In bytes: the most that is read at once, where a page isn't larger.
const PIECE_LEN: u32 = 256;

/// Memory that records are read into. It is taken once.
#[derive(Debug, Drop)]
pub(crate) struct PageRoom {
    /// The last page of an entry.
    pub page: Vec<u8>,
    /// A piece of a record.
    pub piece: Vec<u8>,
    /// In front of it the area that a record passes.
    pub area: Vec<u8>,
}

impl PageRoom {
    /// For pages of this size, at least one byte, and areas of at most this length.
    pub(crate) fn of(alloc: Global, page: u32, area_len: usize) -> Result<PageRoom, NoMemory>
        requires { 1 ≤ page }
        ensures { IfOk result (HasPageRoom page area_len) }
    {
        let piece_len = PIECE_LEN.max(page);
        let last = vec![in alloc; 0u8; page as usize]?;
        let piece = vec![in alloc; 0u8; piece_len as usize]?;
        let area = vec![in alloc; 0u8; area_len]?;
        Ok(PageRoom {
            page: last,
            piece,
            area,
        })
    }
}
