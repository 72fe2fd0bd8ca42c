ghost use Rattle.std.specs.Prelude.{◌≡◌, ◌≤◌, ◌↔◌, false};
ghost use Rattle.bb_base.specs.Number.{IsTooLarge, is_spelt, number_of, numeral_value};

use thiserror::Error;

/// Why a text spells no number.
#[derive(Clone, Copy, Debug, PartialEq, Eq, Error)]
pub enum NumberError {
    /// It isn't spelt as a number.
    #[error("not a number")]
    NotNumber,
    /// It is spelt as a number that exceeds 4,294,967,295.
    #[error("a number above 4294967295")]
    TooLarge,
}

// One more than the greatest number that is read.
const LIMIT: u64 = 1 << 32;

/// Reads a number: one or more decimal digits, or `0x` or `0X` and one or more hexadecimal digits.
/// No sign and no blank is part of it.
pub fn read_number(text: &[u8]) -> Result<u32, NumberError>
    ensures value { result ≡ number_of text.now }
    ensures not_number { (result ≡ Err NumberError.NotNumber) ↔ (is_spelt text.now ≡ false) }
    ensures too_large { (result ≡ Err NumberError.TooLarge) ↔ IsTooLarge text.now }
{
    match text {
        [b'0', b'x' | b'X', digits @ ..] => read_digits(16, digits),
        digits => read_digits(10, digits),
    }
}

fn read_digits(radix: u32, digits: &[u8]) -> Result<u32, NumberError>
    requires few { radix ≤ 36 }
    requires some { 2 ≤ radix }
    ensures { result ≡ numeral_value radix digits.now }
{
    if digits.is_empty() {
        return Err(NumberError::NotNumber);
    }
    let mut value = 0u64;
    for c in digits {
        let Some(digit) = char::from(*c).to_digit(radix) else {
            return Err(NumberError::NotNumber);
        };
        value = (value * u64::from(radix) + u64::from(digit)).min(LIMIT);
    }
    u32::try_from(value).map_err(|_| NumberError::TooLarge)
}
