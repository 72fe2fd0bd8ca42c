ghost use Rattle.std.specs.Prelude.{◌≡◌, ◌<◌, None, IfOk, IfErr, drop, length};
ghost use Rattle.bb_words.specs.Answer.{IsSized, Refuses};
ghost use Rattle.bb_words.specs.Options.{none_given};
ghost use Rattle.bb_words.specs.Words.{Options, words_from};

use crate::given::Given;
use crate::row::Row;
use crate::word::word_at;
use crate::{Command, WordsError};
use bb_base::TextList;
use std::alloc::Global;

/// Reads the options after a command's name.
pub(crate) fn read_options(alloc: Global, row: Row, words: &TextList) -> Result<Command, WordsError>
    requires { 0 < length words.now }
    ensures ok { IfOk result (λ command.
        words_from 1 (Options row None none_given) (drop 1 words.now) ≡ Ok command) }
    ensures sized { IfOk result IsSized }
    ensures refused { IfErr result (Refuses
        (words_from 1 (Options row None none_given) (drop 1 words.now))) }
{
    let mut given = Given::none(alloc);
    let mut due = None;
    for place in 1..words.len() {
        due = given.take(alloc, row, due, word_at(words, place)?, place)?;
    }
    given.command(row, due, words.len())
}
