ghost use Rattle.std.specs.Prelude.{◌≡◌, ◌≤◌, IfOk, IfErr, IfSome, None, Ok, OnOk, Some, drop};
ghost use Rattle.std.specs.Prelude.{option_and_then, slice_get};
ghost use Rattle.bb_words.specs.Answer.{Refuses};
ghost use Rattle.bb_words.specs.Words.{Whole, number_up_to, words_from};
ghost use Rattle.bb_words.specs.declared.command.Command.{Command};

use crate::WordsError;
use bb_base::{TextList, read_number};

/// The word at a place, which is where a word is missing if there is none.
pub(crate) fn word_at(words: &TextList, place: usize) -> Result<&str, WordsError>
    ensures ok { IfOk result (λ word. slice_get words.now place ≡ Some word.now) }
    ensures refused { IfErr result (λ cause.
        (cause ≡ WordsError.BadWord place) × (slice_get words.now place ≡ None)) }
{
    match words.get(place) {
        Some(word) => Ok(word.as_str()),
        None => Err(WordsError::BadWord(place)),
    }
}

/// No word stands at this place.
#[tactic(auto, using(crate::proofs::Steps::at_end))]
pub(crate) fn ends_at(words: &TextList, place: usize) -> Result<(), WordsError>
    ensures ok { OnOk result ((command : Command)
        → words_from place (Whole command) (drop place words.now) ≡ Ok command) }
    ensures refused { IfErr result (λ cause. (command : Command)
        → Refuses (words_from place (Whole command) (drop place words.now)) cause) }
{
    match words.get(place) {
        None => Ok(()),
        Some(_) => Err(WordsError::BadWord(place)),
    }
}

/// The number at this place, up to a greatest one.
pub(crate) fn number_at(words: &TextList, place: usize, most: u32) -> Result<u32, WordsError>
    ensures ok { IfOk result (λ n.
        option_and_then (number_up_to most) (slice_get words.now place) ≡ Some n) }
    ensures bound { IfOk result (λ n. n ≤ most) }
    ensures refused { IfErr result (λ cause. (cause ≡ WordsError.BadWord place)
        × (option_and_then (number_up_to most) (slice_get words.now place) ≡ None)) }
{
    words
        .get(place)
        .and_then(|word| number_up_to(most, word.as_str()))
        .ok_or(WordsError::BadWord(place))
}

/// The number that a text spells, up to a greatest one.
pub(crate) fn number_up_to(most: u32, text: &str) -> Option<u32>
    ensures value { result ≡ number_up_to most text.now }
    ensures bound { IfSome result (λ n. n ≤ most) }
{
    read_number(text.as_bytes()).ok().filter(|n| *n <= most)
}
