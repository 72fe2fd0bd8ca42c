ghost use Rattle.std.specs.Prelude.{◌≡◌, ◌+◌, ◌≤◌, IsTrue, drop, length};
ghost use Rattle.bb_dtbrec.specs.Dtb.{IsInside, are_pieces, field_len, piece_len, pieces_len};
ghost use Rattle.bb_dtbrec.specs.Feeding.{area_where, field_slots, piece_slots, read_slots};
ghost use Rattle.bb_dtbrec.specs.Feeding.{slots_from};
ghost use Rattle.bb_dtbrec.specs.declared.piece.Spelling.TheVariants.{ByteAsCell};

use crate::parts::{cut, put, put_turned, stands_at};
use crate::piece::{Piece, Place, Spelling};

/// How far a record came: to which piece, and how many bytes of that.
#[derive(Clone, Copy, Debug)]
pub struct Cursor {
    pub(crate) piece: usize,
    pub(crate) offset: usize,
}

/// Takes the next bytes of the pieces, and those of values over into the area. False where a byte
/// isn't as in every record. Bytes after the pieces don't count.
pub(crate) fn walk(pieces: &[Piece], cursor: &mut Cursor, text: &[u8], area: &mut [u8]) -> bool
    requires pieces { IsTrue (are_pieces pieces.now (length area.old)) }
    requires small { pieces_len pieces.now ≤ 0xffffffff }
    ensures read { read_slots (slots_from pieces.now cursor.old) text.now area.old
        ≡ area_where result area.new }
    ensures next { slots_from pieces.now cursor.new
        ≡ drop (length text.now) (slots_from pieces.now cursor.old) }
    ensures len { length area.new ≡ length area.old }
{
    let mut agrees = true;
    let mut rest = text;
    let mut offset = cursor.offset;
    for place in cursor.piece..pieces.len() {
        let piece = &pieces[place];
        let len = piece.len();
        let from = offset.min(len);
        let (part, after) = cut(rest, len - from);
        let here = take_part(piece, from, part, area);
        agrees = agrees & here;
        if after.is_empty() {
            cursor.piece = place;
            cursor.offset = from + part.len();
            return agrees;
        }
        rest = after;
        offset = 0;
    }
    cursor.piece = pieces.len();
    cursor.offset = 0;
    agrees
}

// Takes bytes of a piece, from the one at `offset` on.
fn take_part(piece: &Piece, offset: usize, part: &[u8], area: &mut [u8]) -> bool
    requires inside { IsInside piece.now (length area.old) }
    requires within { offset + length part.now ≤ piece_len piece.now }
    ensures read { read_slots (drop offset (piece_slots piece.now)) part.now area.old
        ≡ area_where result area.new }
    ensures len { length area.new ≡ length area.old }
{
    match piece {
        Piece::Fixed(bytes) => stands_at(bytes.as_slice(), offset, part),
        Piece::Value(place) => take_value(*place, offset, part, area),
    }
}

// Takes bytes of a field.
fn take_value(place: Place, offset: usize, part: &[u8], area: &mut [u8]) -> bool
    requires inside { place.at + place.size ≤ length area.old }
    requires within { offset + length part.now ≤ field_len place.spelling place.size }
    ensures read { read_slots (drop offset (field_slots place.spelling place.at place.size))
        part.now area.old ≡ area_where result area.new }
    ensures len { length area.new ≡ length area.old }
{
    match place.spelling {
        Spelling::ByteAsCell => take_cell(place, offset, part, area),
        Spelling::NumberAsCell => {
            put_turned(area, place.at + (place.size - offset), part);
            true
        }
        Spelling::AsIs => {
            put(area, place.at + offset, part);
            true
        }
    }
}

// Takes bytes of the cell of a byte: three bytes of zero, and that byte.
fn take_cell(place: Place, offset: usize, part: &[u8], area: &mut [u8]) -> bool
    requires inside { place.at + place.size ≤ length area.old }
    requires within { offset + length part.now ≤ 3 + place.size }
    ensures read { read_slots (drop offset (field_slots ByteAsCell place.at place.size))
        part.now area.old ≡ area_where result area.new }
    ensures len { length area.new ≡ length area.old }
{
    let (high, low) = cut(part, 3usize.saturating_sub(offset));
    put(area, place.at + offset.saturating_sub(3), low);
    stands_at(&[0; 3], offset.min(3), high)
}
