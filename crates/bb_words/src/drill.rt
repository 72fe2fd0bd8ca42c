ghost use Rattle.std.specs.Prelude.{◌≡◌, IfErr, IfOk, None, Ok, Some, drop, option_and_then};
ghost use Rattle.std.specs.Prelude.{slice_get};
ghost use Rattle.bb_words.specs.Answer.{Refuses};
ghost use Rattle.bb_words.specs.Words.{DrillNumber, sessions_spelt, words_from};
ghost use Rattle.bb_words.specs.declared.command.Command.TheVariants.{Drill};

use crate::word::{ends_at, number_at, number_up_to};
use crate::{DrillNumbers, WordsError};
use bb_base::TextList;

// The most sessions of a drill.
const SESSION_LIMIT: u32 = 1000;

/// Reads the words after `drill`.
pub(crate) fn read_drill(words: &TextList) -> Result<DrillNumbers, WordsError>
    ensures ok { IfOk result (λ numbers.
        words_from 1 DrillNumber (drop 1 words.now) ≡ Ok (Drill numbers)) }
    ensures refused { IfErr result (Refuses (words_from 1 DrillNumber (drop 1 words.now))) }
{
    let number = number_at(words, 1, u32::MAX)?;
    let count = sessions_at(words, 2)?;
    ends_at(words, 3)?;
    Ok(DrillNumbers { number, count })
}

// The number of sessions at this place.
fn sessions_at(words: &TextList, place: usize) -> Result<u16, WordsError>
    ensures ok { IfOk result (λ n.
        option_and_then sessions_spelt (slice_get words.now place) ≡ Some n) }
    ensures refused { IfErr result (λ cause. (cause ≡ WordsError.BadWord place)
        × (option_and_then sessions_spelt (slice_get words.now place) ≡ None)) }
{
    words
        .get(place)
        .and_then(|word| sessions_spelt(word.as_str()))
        .ok_or(WordsError::BadWord(place))
}

// The number of sessions that a text spells.
fn sessions_spelt(text: &str) -> Option<u16>
    ensures { result ≡ sessions_spelt text.now }
{
    match number_up_to(SESSION_LIMIT, text) {
        Some(count) if 1 <= count => Some(count as u16),
        _ => None,
    }
}
