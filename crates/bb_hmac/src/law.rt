ghost use Rattle.std.specs.Prelude.{◌≡◌, List, ℕ};
ghost use Rattle.bb_hmac.specs.Hmac.{key_block, hmac_of};

/// A key's block gives the codes that the key gives, so that no more of a key has to be kept. The
/// function does nothing.
pub fn law_block_stands_for_key()
    ensures { (key text : List ℕ) → hmac_of (key_block key) text ≡ hmac_of key text }
{}
