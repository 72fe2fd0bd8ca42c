ghost use Rattle.std.specs.Prelude.{◌≡◌, IfOk};
ghost use Rattle.bb_interpreter.specs.Echo.{echo_text, joined_words};

use bb_base::{Bytes, NoMemory};
use std::alloc::Global;

/// What `echo` sends for these words: the words with a blank between two of them, and a LF where
/// the first isn't `-n`.
pub fn echo_text(alloc: Global, words: &[Bytes]) -> Result<Bytes, NoMemory>
    ensures { IfOk result (λ text. text ≡ echo_text words.now) }
{
    if let Some((first, others)) = words.split_first() {
        if first.as_slice() == b"-n".as_slice() {
            return joined_words(alloc, others);
        }
    }
    let mut text = joined_words(alloc, words)?;
    text.add(b"\n")?;
    Ok(text)
}

fn joined_words(alloc: Global, words: &[Bytes]) -> Result<Bytes, NoMemory>
    ensures { IfOk result (λ text. text ≡ joined_words words.now) }
{
    let mut text = Bytes::none(alloc);
    let Some((first, others)) = words.split_first() else {
        return Ok(text);
    };
    text.add(first.as_slice())?;
    for word in others {
        text.add(b" ")?;
        text.add(word.as_slice())?;
    }
    Ok(text)
}
