ghost use Rattle.std.specs.Prelude.{◌≡◌};
ghost use Rattle.bb_layout.specs.Formats.{takes_key};

/// What a copy's record is.
#[derive(Clone, Copy, Debug, PartialEq, Eq)]
pub enum FormatKind {
    /// A raw record without a key.
    Raw,
    /// A raw record that ends in the HMAC-SHA256 of all bytes before it.
    RawHmac,
    /// A devicetree blob with the values of the variables, and a CRC of its own.
    Dtb,
}

impl FormatKind {
    /// Whether such a record is written and read under a key.
    pub fn takes_key(self) -> bool
        ensures { result ≡ takes_key self }
    {
        match self {
            FormatKind::Raw | FormatKind::Dtb => false,
            FormatKind::RawHmac => true,
        }
    }
}
