ghost use Rattle.std.specs.Prelude.{◌≡◌, IfOk, IfErr};
ghost use Rattle.bb_words.specs.Answer.{IsSized, Refuses};
ghost use Rattle.bb_words.specs.Words.{words_of};

use crate::drill::read_drill;
use crate::menu::read_menu;
use crate::options::read_options;
use crate::raw::read_raw;
use crate::row::Row;
use crate::word::word_at;
use crate::{Command, WordsError};
use bb_base::TextList;
use std::alloc::Global;

/// Reads the words of a command, or finds the place of the first word that no command has there
/// after the words before it. The texts of the command are copies.
pub fn read_words(alloc: Global, words: &TextList) -> Result<Command, WordsError>
    ensures ok { IfOk result (λ command. words_of words.now ≡ Ok command) }
    ensures sized { IfOk result IsSized }
    ensures refused { IfErr result (Refuses (words_of words.now)) }
{
    let name = word_at(words, 0)?;
    if name == "raw" {
        return Ok(Command::Raw(read_raw(alloc, words)?));
    }
    if name == "menu" {
        return Ok(Command::Menu(read_menu(alloc, words)?));
    }
    if name == "drill" {
        return Ok(Command::Drill(read_drill(words)?));
    }
    match Row::of(name) {
        Some(row) => read_options(alloc, row, words),
        None => Err(WordsError::BadWord(0)),
    }
}
