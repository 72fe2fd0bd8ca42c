ghost use Rattle.std.specs.Prelude.{◌≡◌, IfOk};
ghost use Rattle.bb_words.specs.Options.{digest_spelt};

use bb_base::{Bytes, NoMemory};
use hex::FromHexError;
use std::alloc::Global;

// In bytes: what SHA-256 gives (FIPS 180-4).
const DIGEST_LEN: usize = 32;

/// The digest that 64 hexadecimal digits spell, `None` where a text is another.
pub(crate) fn digest_spelt(alloc: Global, digits: &str) -> Result<Option<Bytes>, NoMemory>
    ensures { IfOk result (λ digest. digest ≡ digest_spelt digits.now) }
{
    if digits.len() != 2 * DIGEST_LEN {
        return Ok(None);
    }
    let decoded = match hex::decode(alloc, digits) {
        Ok(decoded) => decoded,
        Err(FromHexError::OutOfMemory) => return Err(NoMemory),
        Err(_) => return Ok(None),
    };
    let mut digest = Bytes::none(alloc);
    digest.add(decoded.as_slice())?;
    Ok(Some(digest))
}
