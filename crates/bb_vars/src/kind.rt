ghost use Rattle.std.specs.Prelude.{◌≡◌};

use bb_base::TextList;

/// The kind of a variable: how many bytes it has in an area and what they say (barebox User Manual,
/// State Framework).
#[derive(Debug, Drop)]
pub enum Kind {
    /// A number of 1 byte.
    Uint8,
    /// A number of 4 bytes, little endian.
    Uint32,
    /// One of the names, as its index from 0: 4 bytes, little endian.
    Enum32(TextList),
    /// A MAC address, 6 bytes.
    Mac,
    /// A string of at most so many bytes, filled up with zero bytes.
    Chars(u32),
}

impl Kind {
    ghost use Rattle.bb_vars.specs.Kind.{size_of};

    /// The number of bytes in an area.
    pub fn size(&self) -> u32
        ensures { result ≡ size_of self.now }
    {
        match self {
            Kind::Uint8 => 1,
            Kind::Uint32 | Kind::Enum32(_) => 4,
            Kind::Mac => 6,
            Kind::Chars(size) => *size,
        }
    }
}
