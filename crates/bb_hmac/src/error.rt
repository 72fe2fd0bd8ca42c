use thiserror::Error;

/// Why a text is no key.
#[derive(Clone, Copy, Debug, PartialEq, Eq, Error)]
pub enum KeyError {
    /// Nothing stands before the blanks at its end.
    #[error("an empty key")]
    Empty,
    /// The place, counted from 0, of the first byte that is no hexadecimal digit; where each is one
    /// and their number is odd, that number.
    #[error("no pair of hexadecimal digits at {0}")]
    BadHex(usize),
}
