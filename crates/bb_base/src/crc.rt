ghost use Rattle.std.specs.Prelude.{◌≡◌, ◌++◌, [], List, ℕ};
ghost use Rattle.bb_base.specs.Crc.{crc_of, HasFed};

use crate::remainders::register_after;
use std::marker::Model;

/// CRC-32 of bytes that come in pieces: the reflected one with the polynomial 0xEDB88320, which
/// begins with and is inverted by 0xFFFFFFFF (RFC 1952, section 8). Clauses see the register, the
/// remainder so far.
#[derive(Clone, Copy, Debug)]
pub struct Crc {
    register: u32,
}

impl Model for Crc {
    ghost Value = { ℕ };

    ghost view = { λ crc. crc.register };

    ghost inverse = { λ register. record { register = register } };
}

impl Crc {
    /// Nothing has been fed.
    pub fn start() -> Crc
        ensures { HasFed result [] }
    {
        Crc {
            register: 0xffff_ffff,
        }
    }

    /// Feeds the next piece.
    pub fn feed(&mut self, bytes: &[u8])
        ensures { (fed : List ℕ) → HasFed self.old fed → HasFed self.new (fed ++ bytes.now) }
    {
        self.register = register_after(self.register, bytes);
    }

    /// The CRC of all that was fed.
    pub fn value(&self) -> u32
        ensures { (fed : List ℕ) → HasFed self.now fed → result ≡ crc_of fed }
    {
        self.register ^ 0xffff_ffff
    }
}

/// The CRC-32 of the bytes, as `Crc` has it of them in one piece.
pub fn crc32(bytes: &[u8]) -> u32
    ensures { result ≡ crc_of bytes.now }
{
    register_after(0xffff_ffff, bytes) ^ 0xffff_ffff
}
