ghost use Rattle.std.specs.Prelude.{◌≡◌};
ghost use Rattle.sha2.specs.Sha256.{sha256};

use sha2::{Digest, Sha256};

/// SHA-256 of an image (FIPS 180-4).
pub fn digest_of(image: &[u8]) -> [u8; 32]
    ensures { result ≡ sha256 image.now }
{
    let mut hasher = Sha256::new();
    hasher.update(image);
    hasher.finalize()
}
