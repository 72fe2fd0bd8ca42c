ghost use Rattle.std.specs.Prelude.{◌≡◌, ◌+◌, ◌≤◌, IsTrue, length};
ghost use Rattle.bb_dtbrec.specs.Dtb.{IsInside, are_pieces, field_len, field_of, head_len};
ghost use Rattle.bb_dtbrec.specs.Dtb.{piece_len, piece_text, pieces_len, pieces_text, record_text};

use crate::crc::{FRONT_LEN, HEAD_LEN, record_crc};
use crate::piece::{Piece, Spelling};

/// Writes the record of an area.
pub(crate) fn write_record(front: &[u8], pieces: &[Piece], area: &[u8], out: &mut [u8])
    requires front { length front.now ≡ 76 }
    requires pieces { IsTrue (are_pieces pieces.now (length area.now)) }
    requires small { pieces_len pieces.now ≤ 0xffffffff }
    requires whole { length out.old ≡ head_len + pieces_len pieces.now }
    ensures { out.new ≡ record_text front.now (pieces_text pieces.now area.now) }
{
    let (head, rest) = out.split_at_mut(HEAD_LEN);
    write_pieces(pieces, area, rest);
    let (start, crc) = head.split_at_mut(FRONT_LEN);
    start.copy_from_slice(front);
    crc.copy_from_slice(&record_crc(front, rest).to_be_bytes());
}

#[tactic(auto, using(crate::proofs::Steps::len_more))]
// Writes the pieces of an area's record, one after another.
fn write_pieces(pieces: &[Piece], area: &[u8], out: &mut [u8])
    requires pieces { IsTrue (are_pieces pieces.now (length area.now)) }
    requires small { pieces_len pieces.now ≤ 0xffffffff }
    requires whole { length out.old ≡ pieces_len pieces.now }
    ensures { out.new ≡ pieces_text pieces.now area.now }
{
    let mut at = 0;
    for piece in pieces {
        let end = at + piece.len();
        write_piece(piece, area, &mut out[at..end]);
        at = end;
    }
}

fn write_piece(piece: &Piece, area: &[u8], out: &mut [u8])
    requires inside { IsInside piece.now (length area.now) }
    requires whole { length out.old ≡ piece_len piece.now }
    ensures { out.new ≡ piece_text piece.now area.now }
{
    match piece {
        Piece::Fixed(bytes) => out.copy_from_slice(bytes.as_slice()),
        Piece::Value(place) => {
            write_field(place.spelling, &area[place.at..place.at + place.size], out);
        }
    }
}

// Writes the field of a value.
fn write_field(spelling: Spelling, value: &[u8], out: &mut [u8])
    requires { length out.old ≡ field_len spelling (length value.now) }
    ensures { out.new ≡ field_of spelling value.now }
{
    match spelling {
        Spelling::ByteAsCell => {
            out[..3].fill(0);
            out[3..].copy_from_slice(value);
        }
        Spelling::NumberAsCell => {
            out.copy_from_slice(value);
            out.reverse();
        }
        Spelling::AsIs => out.copy_from_slice(value),
    }
}
