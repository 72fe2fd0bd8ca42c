ghost use Rattle.std.specs.Prelude.{◌≡◌};
ghost use Rattle.bb_dtbrec.specs.Dtb as spec;

use bb_base::Crc;

// In bytes: what stands before the CRC, and before the pieces.
pub(crate) const FRONT_LEN: usize = 76;

pub(crate) const HEAD_LEN: usize = 80;

/// The CRC of a record with this front and these pieces: its own bytes count as zeros.
pub(crate) fn record_crc(front: &[u8], pieces: &[u8]) -> u32
    ensures { result ≡ spec.record_crc front.now pieces.now }
{
    let mut crc = Crc::start();
    crc.feed(front);
    crc.feed(&[0; 4]);
    crc.feed(pieces);
    crc.value()
}
