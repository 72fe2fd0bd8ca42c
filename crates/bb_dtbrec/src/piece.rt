ghost use Rattle.std.specs.Prelude.{◌≡◌, ◌≤◌};
ghost use Rattle.bb_dtbrec.specs.Dtb as spec;
ghost use Rattle.bb_dtbrec.specs.Layouts as layouts;

use bb_base::Bytes;
use bb_layout::Var;
use bb_vars::Kind;

/// How the value of a variable is spelt in its field.
#[derive(Clone, Copy)]
pub enum Spelling {
    /// One byte as a cell of 4 bytes, big endian.
    ByteAsCell,
    /// A number of 4 bytes, which is little endian in the area, as a big-endian cell.
    NumberAsCell,
    /// The bytes as they are.
    AsIs,
}

/// Where a variable stands in the area, and how its value is spelt.
#[derive(Clone, Copy)]
pub struct Place {
    pub at: usize,
    pub size: usize,
    pub spelling: Spelling,
}

/// A piece of a record after its CRC.
#[derive(Drop)]
pub enum Piece {
    /// These bytes in every record.
    Fixed(Bytes),
    /// The value of a variable.
    Value(Place),
}

impl Place {
    // In bytes: the field.
    pub(crate) fn field_len(&self) -> usize
        requires { self.now.size ≤ 0xffffffff }
        ensures { result ≡ spec.field_len self.now.spelling self.now.size }
    {
        match self.spelling {
            Spelling::ByteAsCell => 3 + self.size,
            Spelling::NumberAsCell | Spelling::AsIs => self.size,
        }
    }
}

impl Piece {
    // In bytes: the piece in a record.
    pub(crate) fn len(&self) -> usize
        requires { spec.piece_len self.now ≤ 0xffffffff }
        ensures { result ≡ spec.piece_len self.now }
    {
        match self {
            Piece::Fixed(bytes) => bytes.as_slice().len(),
            Piece::Value(place) => place.field_len(),
        }
    }
}

/// Where a variable stands in the area, and how its value is spelt.
pub(crate) fn place_of(var: &Var) -> Place
    ensures { result ≡ layouts.place_in_area var.now }
{
    let spelling = match var.kind {
        Kind::Uint8 => Spelling::ByteAsCell,
        Kind::Uint32 | Kind::Enum32(_) => Spelling::NumberAsCell,
        Kind::Mac | Kind::Chars(_) => Spelling::AsIs,
    };
    Place {
        at: var.at as usize,
        size: var.size as usize,
        spelling,
    }
}

#[tactic(auto, using(crate::proofs::Steps::len_more))]
// In bytes: the pieces in a record.
pub(crate) fn pieces_len(pieces: &[Piece]) -> usize
    requires { spec.pieces_len pieces.now ≤ 0xffffffff }
    ensures { result ≡ spec.pieces_len pieces.now }
{
    let mut len = 0;
    for piece in pieces {
        len += piece.len();
    }
    len
}
