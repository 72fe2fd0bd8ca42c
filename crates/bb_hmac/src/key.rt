ghost use Rattle.std.specs.Prelude.{◌≡◌, ◌≤◌, ◌*◌, ◌↔◌, ◌++◌, ℕ, [], IfOk, OnOk, drop, length};
ghost use Rattle.std.specs.Result.{result_map_both};
ghost use Rattle.hex.specs.Hex.{decode_of};
ghost use Rattle.sha2.specs.Sha256.{sha256};
ghost use Rattle.bb_hmac.specs.Hmac.{key_block, filled_block, masked_block};
ghost use Rattle.bb_hmac.specs.Key.{IsBadAt, IsHexadecimal, hex_part, first_bad, is_blank, key_of};
ghost use Rattle.bb_hmac.specs.Key.{spelt_key};
ghost use Rattle.bb_hmac.specs.declared.error.KeyError.TheVariants.{BadHex, Empty};

use crate::KeyError;
use sha2::{Digest, Sha256};
use std::marker::Model;

// In bytes: those that SHA-256 takes at a time.
const BLOCK_LEN: usize = 64;

/// A key of HMAC-SHA256. No more of it is kept than its block of 64 bytes (RFC 2104, section 2),
/// which nothing prints or copies. Clauses see the block.
#[derive(Drop)]
pub struct Key {
    block: [u8; 64],
}

impl Model for Key {
    ghost use Rattle.std.specs.Prelude.{◌≡◌, List, ℕ, length};

    ghost Value = { List ℕ };

    ghost view = { λ key. key.block };

    ghost invariant = { λ key. length key.block ≡ 64 };
}

impl Key {
    /// The key that a text spells: two hexadecimal digits a byte, in either case, the high four
    /// bits first. Spaces, tabs, CR and LF at its end don't count. It takes no memory.
    pub fn from_hex(text: &[u8]) -> Result<Key, KeyError>
        ensures value { result ≡ result_map_both key_block (λ e. e) (key_of text.now) }
        ensures empty { (result ≡ Err Empty) ↔ (hex_part text.now ≡ []) }
        ensures bad_hex { (place : ℕ)
            → (result ≡ Err (BadHex place)) ↔ IsBadAt (hex_part text.now) place }
    {
        let digits = without_blanks(text);
        check(digits)?;
        Ok(Key {
            block: block_from(digits),
        })
    }

    // Each byte of the block, exclusive or the byte of a pad.
    pub(crate) fn masked_block(&self, pad: u8) -> [u8; 64]
        ensures { result ≡ masked_block pad self.now }
    {
        let mut masked = self.block;
        for byte in &mut masked {
            *byte ^= pad;
        }
        masked
    }
}

fn without_blanks(text: &[u8]) -> &[u8]
    ensures { result.now ≡ hex_part text.now }
{
    let mut end = text.len();
    while end > 0 && is_blank(text[end - 1]) {
        end -= 1;
    }
    &text[..end]
}

fn is_blank(c: u8) -> bool
    ensures { result ≡ is_blank c }
{
    matches!(c, b' ' | b'\t' | b'\r' | b'\n')
}

// Refuses digits that spell no key.
fn check(digits: &[u8]) -> Result<(), KeyError>
    ensures ok { OnOk result (IsHexadecimal digits.now) }
    ensures value { result_map_both (λ _. tt) (λ e. e) (spelt_key digits.now) ≡ result }
{
    if digits.is_empty() {
        return Err(KeyError::Empty);
    }
    if let Some(place) = first_bad(digits) {
        return Err(KeyError::BadHex(place));
    }
    if digits.len() % 2 == 1 {
        return Err(KeyError::BadHex(digits.len()));
    }
    Ok(())
}

fn first_bad(digits: &[u8]) -> Option<usize>
    ensures { result ≡ first_bad digits.now }
{
    digits.iter().position(|c| !c.is_ascii_hexdigit())
}

// The block of the key that the digits spell.
fn block_from(digits: &[u8]) -> [u8; 64]
    requires { IsHexadecimal digits.now }
    ensures { IfOk (decode_of digits.now) (λ key. result ≡ key_block key) }
{
    if digits.len() <= 2 * BLOCK_LEN {
        filled_block(digits)
    } else {
        hashed_block(digits)
    }
}

fn filled_block(digits: &[u8]) -> [u8; 64]
    requires spelt { IsHexadecimal digits.now }
    requires short { length digits.now ≤ 2 * 64 }
    ensures { IfOk (decode_of digits.now) (λ key. result ≡ filled_block key) }
{
    let mut block = [0; BLOCK_LEN];
    write_bytes(digits, &mut block);
    block
}

fn hashed_block(digits: &[u8]) -> [u8; 64]
    requires { IsHexadecimal digits.now }
    ensures { IfOk (decode_of digits.now) (λ key. result ≡ filled_block (sha256 key)) }
{
    let mut block = [0; BLOCK_LEN];
    block[..32].copy_from_slice(&hash_of(digits));
    block
}

// SHA-256 of the bytes that the digits spell.
fn hash_of(digits: &[u8]) -> [u8; 32]
    requires { IsHexadecimal digits.now }
    ensures { IfOk (decode_of digits.now) (λ key. result ≡ sha256 key) }
{
    let mut hasher = Sha256::new();
    let mut bytes = [0; BLOCK_LEN];
    let mut rest = digits;
    while !rest.is_empty() {
        let (piece, behind) = rest.split_at(rest.len().min(2 * BLOCK_LEN));
        write_bytes(piece, &mut bytes);
        hasher.update(&bytes[..piece.len() / 2]);
        rest = behind;
    }
    hasher.finalize()
}

// Writes the bytes that the digits spell to the front of `out`.
fn write_bytes(digits: &[u8], out: &mut [u8])
    requires spelt { IsHexadecimal digits.now }
    requires room { length digits.now ≤ 2 * length out.old }
    ensures { IfOk (decode_of digits.now) (λ bytes.
        out.new ≡ bytes ++ drop (length bytes) out.old) }
{
    hex::decode_to_slice(digits, &mut out[..digits.len() / 2]).unwrap();
}
