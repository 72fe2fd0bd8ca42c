use crate::open_error::{OpenError, Refused};

/// What comes in place of a session.
#[derive(Clone, Copy)]
pub enum Early {
    /// The usage.
    Help,
    Version,
    /// The words make no session.
    NoSession,
    /// The device is refused, or the place of a boot's plan.
    Refused(Refused),
    NoMemory,
}

/// The texts of the program that come in place of a session.
#[derive(Clone, Copy)]
pub struct EarlyTexts<'a> {
    pub usage: &'a str,
    pub version: &'a str,
}

impl From<OpenError> for Early {
    fn from(error: OpenError) -> Self {
        match error {
            OpenError::Refused(refused) => Early::Refused(refused),
            OpenError::NoMemory => Early::NoMemory,
        }
    }
}
