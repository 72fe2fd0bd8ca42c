ghost use Rattle.std.specs.Prelude.{◌≡◌};
ghost use Rattle.bb_dts.specs.Characters.{is_blank, is_word, begins_label, is_name_character};
ghost use Rattle.bb_dts.specs.Characters.{is_octal};
ghost use Rattle.bb_dts.specs.Characters.{is_hexadecimal};

/// Space, tab, LF, form feed or CR.
pub(crate) fn is_blank(c: u8) -> bool
    ensures { result ≡ is_blank c }
{
    matches!(c, b' ' | b'\t' | b'\n' | 12 | b'\r')
}

/// A letter, a digit or `_`.
pub(crate) fn is_word(c: u8) -> bool
    ensures { result ≡ is_word c }
{
    c.is_ascii_alphanumeric() || c == b'_'
}

/// A letter or `_`.
pub(crate) fn begins_label(c: u8) -> bool
    ensures { result ≡ begins_label c }
{
    c.is_ascii_alphabetic() || c == b'_'
}

/// A character of the names of nodes and properties.
pub(crate) fn is_name(c: u8) -> bool
    ensures { result ≡ is_name_character c }
{
    is_word(c) || matches!(c, b',' | b'.' | b'+' | b'*' | b'#' | b'?' | b'@' | b'-')
}

pub(crate) fn is_octal(c: u8) -> bool
    ensures { result ≡ is_octal c }
{
    matches!(c, b'0'..=b'7')
}

pub(crate) fn is_hexadecimal(c: u8) -> bool
    ensures { result ≡ is_hexadecimal c }
{
    c.is_ascii_hexdigit()
}
