/// How a page of flash is, from best to worst.
#[derive(Clone, Copy, Debug, PartialEq, Eq)]
pub enum Health {
    /// Its bytes are read as they were written.
    Fine,
    /// Its bytes are read as they were written, but only after a correction: it is to be written
    /// anew.
    Worn,
    /// Its bytes can't be read any more; reading it gives any bytes.
    Lost,
}
