ghost use Rattle.std.specs.Prelude.{◌≡◌, ◌↔◌, ◌++◌, [], List, ℕ, length};
ghost use Rattle.std.specs.Str.{bytes_eq};
ghost use Rattle.bb_hmac.specs.Hmac.{hmac_of};
ghost use Rattle.bb_hmac.specs.Mac.{HasFed};

use crate::Key;
use sha2::{Digest, Sha256};

const IPAD: u8 = 0x36;

const OPAD: u8 = 0x5c;

/// HMAC-SHA256 of bytes that come in pieces (RFC 2104).
#[derive(Drop)]
pub struct Mac {
    inner: Sha256,
    outer: Sha256,
}

impl Mac {
    /// Nothing has been fed.
    pub fn start(key: &Key) -> Mac
        ensures { HasFed result key.now [] }
    {
        let mut inner = Sha256::new();
        inner.update(&key.masked_block(IPAD));
        let mut outer = Sha256::new();
        outer.update(&key.masked_block(OPAD));
        Mac { inner, outer }
    }

    /// Feeds the next piece.
    pub fn feed(&mut self, bytes: &[u8])
        ensures { (key fed : List ℕ) → HasFed self.old key fed
            → HasFed self.new key (fed ++ bytes.now) }
    {
        self.inner.update(bytes);
    }

    /// The code of all that was fed.
    pub fn value(mut self) -> [u8; 32]
        ensures { (key fed : List ℕ) → HasFed self key fed → result ≡ hmac_of key fed }
    {
        let hash = self.inner.finalize();
        self.outer.update(&hash);
        self.outer.finalize()
    }
}

/// HMAC-SHA256 of two pieces, one after the other.
pub fn hmac(key: &Key, first: &[u8], second: &[u8]) -> [u8; 32]
    ensures { result ≡ hmac_of key.now (first.now ++ second.now) }
{
    let mut mac = Mac::start(key);
    mac.feed(first);
    mac.feed(second);
    mac.value()
}

/// Whether the bytes are this code. All 32 bytes are looked at wherever the first that differs
/// stands, so that the time tells nothing of its place; no clause speaks of time.
pub fn same_mac(mac: &[u8; 32], bytes: &[u8]) -> bool
    ensures { result ≡ bytes_eq mac.now bytes.now }
{
    bytes.len() == mac.len() && differing_bits(mac, bytes) == 0
}

// A bit for each that differs in some byte.
fn differing_bits(mac: &[u8; 32], bytes: &[u8]) -> u8
    requires { length bytes.now ≡ 32 }
    ensures { (result ≡ 0) ↔ (mac.now ≡ bytes.now) }
{
    let mut differing = 0;
    for i in 0..32 {
        differing |= mac[i] ^ bytes[i];
    }
    differing
}
