ghost use Rattle.std.specs.Prelude.{◌≡◌, IfOk, IfErr, Ok, drop};
ghost use Rattle.bb_words.specs.Answer.{Refuses};
ghost use Rattle.bb_words.specs.Words.{DirOption, DirValue, words_from};
ghost use Rattle.bb_words.specs.declared.command.Command.TheVariants.{Menu};

use crate::word::{ends_at, word_at};
use crate::{MenuCommand, WordsError};
use bb_base::{Text, TextList};
use std::alloc::Global;

/// Reads the words after `menu`.
pub(crate) fn read_menu(alloc: Global, words: &TextList) -> Result<MenuCommand, WordsError>
    ensures ok { IfOk result (λ menu. words_from 1 DirOption (drop 1 words.now) ≡ Ok (Menu menu)) }
    ensures refused { IfErr result (Refuses (words_from 1 DirOption (drop 1 words.now))) }
{
    let word = word_at(words, 1)?;
    if word == "--dir" {
        return read_dir(alloc, words);
    }
    Err(WordsError::BadWord(1))
}

// Reads the words after `--dir`.
fn read_dir(alloc: Global, words: &TextList) -> Result<MenuCommand, WordsError>
    ensures ok { IfOk result (λ menu. words_from 2 DirValue (drop 2 words.now) ≡ Ok (Menu menu)) }
    ensures refused { IfErr result (Refuses (words_from 2 DirValue (drop 2 words.now))) }
{
    let dir = word_at(words, 2)?;
    ends_at(words, 3)?;
    let dir = Text::of(alloc, dir)?;
    Ok(MenuCommand { dir })
}
