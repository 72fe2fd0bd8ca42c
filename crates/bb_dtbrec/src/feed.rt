ghost use Rattle.std.specs.Prelude.{◌≡◌, ◌+◌, ◌≤◌, ◌++◌, ◌∷◌, ◌==◌, ◌&&◌, ℕ, List, IsTrue, []};
ghost use Rattle.std.specs.Prelude.{length, replicate, take};
ghost use Rattle.bb_base.specs.Crc.{HasFed};
ghost use Rattle.bb_dtbrec.specs.Checking.{head_agrees};
ghost use Rattle.bb_dtbrec.specs.Dtb.{are_pieces, crc_text, head_len, pieces_len};
ghost use Rattle.bb_dtbrec.specs.Feeding.{HasCome, cleared};

use crate::crc::{FRONT_LEN, HEAD_LEN};
use crate::parts::{cut, put};
use crate::piece::{Piece, pieces_len};
use crate::walk::{Cursor, walk};
use bb_base::Crc;

/// A record that is being checked. The values of variables stand in their places in the area.
#[derive(Debug, Drop)]
pub struct DtbFeed {
    // the bytes before the pieces
    pub(crate) head: [u8; 80],
    // how many bytes a record has, and how many of it came
    pub(crate) len: usize,
    pub(crate) count: usize,
    // of a record with the right front, as far as its pieces came
    pub(crate) crc: Crc,
    // what came of the pieces is as in every record, and goes so far
    pub(crate) sound: bool,
    pub(crate) cursor: Cursor,
}

/// Nothing of a record with this front and these pieces came.
pub(crate) fn start_record(front: &[u8], pieces: &[Piece]) -> DtbFeed
    requires { head_len + pieces_len pieces.now ≤ 0xffffffff }
    ensures { (size : ℕ) → HasCome front.now pieces.now size result [] (replicate size 0) }
{
    let crc = front_crc(front);
    let len = HEAD_LEN + pieces_len(pieces);
    DtbFeed {
        head: [0; 80],
        len,
        count: 0,
        crc,
        sound: true,
        cursor: Cursor {
            piece: 0,
            offset: 0,
        },
    }
}

// The CRC of what stands before the pieces: its own bytes count as zeros.
fn front_crc(front: &[u8]) -> Crc
    ensures { HasFed result (crc_text front.now []) }
{
    let mut crc = Crc::start();
    crc.feed(front);
    crc.feed(&[0; 4]);
    crc
}

/// Takes the next bytes of a record, and any bytes after it.
pub(crate) fn feed_record(pieces: &[Piece], feed: &mut DtbFeed, text: &[u8], area: &mut [u8])
    requires pieces { IsTrue (are_pieces pieces.now (length area.old)) }
    requires small { head_len + pieces_len pieces.now ≤ 0xffffffff }
    ensures held { (front fed : List ℕ)
        → HasCome front pieces.now (length area.old) feed.old
        (take (head_len + pieces_len pieces.now) fed) (cleared feed.old.count area.old)
        → HasCome front pieces.now (length area.old) feed.new
        (take (head_len + pieces_len pieces.now) (fed ++ text.now))
        (cleared feed.new.count area.new) }
    ensures len { length area.new ≡ length area.old }
{
    clear_first(feed.count, area);
    let (own, _) = cut(text, feed.len.saturating_sub(feed.count));
    take_in(pieces, feed, own, area);
}

// Clears the area before the first byte.
fn clear_first(count: usize, area: &mut [u8])
    ensures { area.new ≡ cleared count area.old }
{
    if count == 0 {
        area.fill(0);
    }
}

// Takes the next bytes of a record.
fn take_in(pieces: &[Piece], feed: &mut DtbFeed, text: &[u8], area: &mut [u8])
    requires pieces { IsTrue (are_pieces pieces.now (length area.old)) }
    requires small { pieces_len pieces.now ≤ 0xffffffff }
    requires counted { feed.old.count + length text.now ≤ 18446744073709551615 }
    ensures held { (front bytes : List ℕ) (size : ℕ)
        → HasCome front pieces.now size feed.old bytes area.old
        → HasCome front pieces.now size feed.new (bytes ++ text.now) area.new }
    ensures len { length area.new ≡ length area.old }
{
    let at = feed.count.min(HEAD_LEN);
    let (first, rest) = cut(text, HEAD_LEN - at);
    put(&mut feed.head, at, first);
    feed.crc.feed(rest);
    let agrees = walk(pieces, &mut feed.cursor, rest, area);
    feed.sound = feed.sound & agrees;
    feed.count += text.len();
}

/// Whether a whole record came, and its front, its CRC and its pieces agree.
pub(crate) fn is_whole(front: &[u8], feed: &DtbFeed) -> bool
    ensures { (pieces : List ℕ) → HasFed feed.now.crc (crc_text front.now pieces)
        → result ≡ (((feed.now.count == feed.now.len)
        && head_agrees front.now pieces feed.now.head) && feed.now.sound) }
{
    feed.count == feed.len && has_head(front, &feed.crc, &feed.head) && feed.sound
}

// Whether the bytes before the pieces are this front, and then this CRC.
fn has_head(front: &[u8], crc: &Crc, head: &[u8]) -> bool
    requires { length head.now ≡ head_len }
    ensures { (pieces : List ℕ) → HasFed crc.now (crc_text front.now pieces)
        → result ≡ head_agrees front.now pieces head.now }
{
    let (start, code) = head.split_at(FRONT_LEN);
    let expected = crc.value().to_be_bytes();
    front == start && expected.as_slice() == code
}
