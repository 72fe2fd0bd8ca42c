ghost use Rattle.std.specs.Prelude.{◌≡◌, IfSome, length};
ghost use Rattle.bb_flash.specs.Geometry.{IsGeometry};

use bb_flash::Geometry;
use std::alloc::Global;
use std::fs::File;
use std::io;
use std::os::unix::fs::FileExt;

// The most bytes that are read at once of a device that is erased in blocks.
const BLOCK_PIECE_LEN: u32 = 65_536;

// The most of any other. From 65,536 bytes on the C library tidies up where they are freed.
const RUN_PIECE_LEN: u32 = 65_280;

// The bytes that are read there at first. Most records are shorter.
const FRONT_LEN: usize = 1_024;

/// A piece of a device's file, kept for a look that goes over it in small reads, backwards too. Who
/// writes the file has to say `forget` first.
#[derive(Drop)]
pub struct ReadAhead {
    // The bytes that are kept, in memory that was taken for the longest piece.
    bytes: Vec<u8>,
    // The piece that was asked for, if one is kept.
    piece: Option<Piece>,
    // How many bytes of it the system gave.
    given: usize,
    most_len: usize,
    is_in_blocks: bool,
    // The reads that went on from one to the next, up to the last.
    run: Run,
}

#[derive(Clone, Copy)]
struct Piece {
    start: u64,
    len: usize,
}

#[derive(Clone, Copy)]
struct Run {
    start: u64,
    end: u64,
}

impl ReadAhead {
    /// Reads ahead on a device of this geometry. No piece is longer than the device. Memory is
    /// taken here alone.
    pub fn of(alloc: Global, geometry: Geometry) -> io::Result<ReadAhead>
        requires { IsGeometry geometry }
    {
        let is_in_blocks = geometry.block != 0;
        let most = match is_in_blocks {
            true => BLOCK_PIECE_LEN.min(geometry.size),
            false => RUN_PIECE_LEN.min(geometry.size),
        };
        let most_len = (most - most % geometry.page) as usize;
        Ok(ReadAhead {
            bytes: Vec::with_capacity(alloc, most_len)?,
            piece: None,
            given: 0,
            most_len,
            is_in_blocks,
            run: Run { start: 0, end: 0 },
        })
    }

    /// Reads as `read_exact_at` of the file does. Where a whole piece can't be read, only these
    /// bytes are.
    pub fn read_exact_at(&mut self, file: &File, out: &mut [u8], at: u64) -> io::Result<()> {
        self.run = Run {
            start: if at == self.run.end {
                self.run.start
            } else {
                at
            },
            end: at.saturating_add(out.len() as u64),
        };
        // what is longer than a piece isn't read ahead
        if out.len() <= self.most_len && self.kept(at, out.len()).is_none() {
            self.keep(file, self.piece_at(at));
        }
        match self.kept(at, out.len()) {
            Some(bytes) => {
                out.copy_from_slice(bytes);
                Ok(())
            }
            None => file.read_exact_at(out, at),
        }
    }

    /// Drops what was read ahead.
    pub fn forget(&mut self) {
        self.piece = None;
    }

    // The piece to be read for a read at this place. On a device in blocks it begins at a multiple
    // of its length. On any other it is short for the first read of a run. For a later one it is
    // long, and has the whole run where it can.
    fn piece_at(&self, at: u64) -> Piece {
        let len = self.most_len;
        if self.is_in_blocks {
            let start = at - at.checked_rem(len as u64).unwrap_or(0);
            return Piece { start, len };
        }
        let Run { start, end } = self.run;
        if at == start {
            return Piece {
                start,
                len: FRONT_LEN.min(len),
            };
        }
        match end.saturating_sub(start) <= len as u64 {
            true => Piece { start, len },
            false => Piece { start: at, len },
        }
    }

    // Reads this piece, unless it is kept.
    fn keep(&mut self, file: &File, piece: Piece) {
        if matches!(self.piece, Some(kept) if kept.start == piece.start && kept.len == piece.len) {
            return;
        }
        self.piece = None;
        if self.bytes.len() < piece.len && self.bytes.resize(piece.len, 0).is_err() {
            return;
        }
        if let Some(room) = self.bytes.as_mut_slice().get_mut(..piece.len) {
            self.given = file.read_at(room, piece.start).unwrap_or(0);
            self.piece = Some(piece);
        }
    }

    // So many bytes from this place on, where the piece has them.
    fn kept(&self, at: u64, len: usize) -> Option<&[u8]>
        ensures { IfSome result (λ bytes. length bytes.now ≡ len) }
    {
        let offset = at.checked_sub(self.piece?.start)?;
        let bytes = self.bytes.get(..self.given)?;
        bytes.get(offset as usize..)?.get(..len)
    }
}
