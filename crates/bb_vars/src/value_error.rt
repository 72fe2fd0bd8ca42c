ghost use Rattle.bb_vars.specs.Value.{number_refusal};
ghost use Rattle.std.specs.Prelude.{◌≡◌};

use bb_base::NumberError;
use thiserror::Error;

/// Why a text is no value of a kind, in the order in which the causes are looked at.
#[derive(Clone, Copy, Debug, PartialEq, Eq, Error)]
pub enum ValueError {
    /// It isn't spelt as a number.
    #[error("not a number")]
    NotNumber,
    /// It is spelt as a number above 255 for a uint8, or above 4,294,967,295 for a uint32.
    #[error("a number too large")]
    TooLarge,
    /// It is none of the enum's names, byte for byte.
    #[error("not among the names")]
    NoSuchName,
    /// It isn't six pairs of hexadecimal digits joined by `:`.
    #[error("not a MAC address")]
    NotMac,
    /// It has more bytes than the string's size.
    #[error("longer than the variable")]
    TooLong,
    /// It has a zero byte, and not more bytes than the string's size.
    #[error("a zero byte in a string")]
    HasZeroByte,
}

impl From<NumberError> for ValueError {
    ghost from_gives = { λ number e. e ≡ number_refusal number };

    fn from(error: NumberError) -> ValueError {
        match error {
            NumberError::NotNumber => ValueError::NotNumber,
            NumberError::TooLarge => ValueError::TooLarge,
        }
    }
}
