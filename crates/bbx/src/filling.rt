ghost use Rattle.std.specs.Prelude.{◌-◌, ◌≤◌};

use std::fs::File;
use std::io;
use std::os::unix::fs::FileExt;

// What is filled by one call of the system at most.
const FILLING_LEN: u64 = 16_384;

static FILLING: [u8; FILLING_LEN as usize] = [0xff; FILLING_LEN as usize];

// What the system's cache brings to the disk at once.
const PIECE_LEN: u64 = 4096;

/// Fills the bytes from `start` up to `end` with 0xFF.
pub fn fill(file: &File, start: u64, end: u64) -> io::Result<()> {
    for at in (start..end).step_by(FILLING_LEN as usize) {
        let len = FILLING_LEN.min(end.saturating_sub(at));
        file.write_all_at(&FILLING[..len as usize], at)?;
    }
    Ok(())
}

/// The piece of a file between two bounds that holds the last byte other than 0xFF, where there is
/// one, as its own bounds. The file's pieces are of 4,096 bytes. One that can't be read holds such
/// a byte.
pub fn last_piece(file: &File, start: u64, end: u64) -> Option<(u64, u64)> {
    let last = end / PIECE_LEN;
    for before in 0..last + 1 {
        let place = (last - before) * PIECE_LEN;
        let first = start.max(place);
        let past = end.min(place.saturating_add(PIECE_LEN));
        if past <= start {
            return None;
        }
        if first < past && !is_blank(file, first, past) {
            return Some((first, past));
        }
    }
    None
}

// Whether all bytes between two bounds can be read, and are 0xFF.
fn is_blank(file: &File, first: u64, past: u64) -> bool
    requires order { first ≤ past }
    requires short { past - first ≤ 4096 }
{
    let mut bytes = [0u8; PIECE_LEN as usize];
    let piece = &mut bytes[..(past - first) as usize];
    file.read_exact_at(piece, first).is_ok() && piece.iter().all(|byte| *byte == 0xff)
}
