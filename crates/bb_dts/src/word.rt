ghost use Rattle.std.specs.Prelude.{◌≡◌, IfOk};
ghost use Rattle.std.specs.Str.{IsAscii};

use bb_base::{NoMemory, Text};
use std::alloc::Global;
use std::str;

/// A word of ASCII as text.
pub(crate) fn word_str(word: &[u8]) -> &str
    requires { IsAscii word.now }
    ensures { result.now ≡ word.now }
{
    match str::from_utf8(word) {
        Ok(text) => text,
        Err(_) => unreachable!(),
    }
}

/// A copy of a word of ASCII.
pub(crate) fn word_text(alloc: Global, word: &[u8]) -> Result<Text, NoMemory>
    requires { IsAscii word.now }
    ensures { IfOk result (λ text. text ≡ word.now) }
{
    Text::of(alloc, word_str(word))
}
