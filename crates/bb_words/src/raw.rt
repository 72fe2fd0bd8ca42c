ghost use Rattle.std.specs.Prelude.{◌≡◌, ℕ, IfOk, IfErr, drop, length};
ghost use Rattle.std.specs.Prelude.{option_and_then, slice_get};
ghost use Rattle.std.specs.Option.{ok_or};
ghost use Rattle.bb_words.specs.Answer.{IsSizedFor, IsSizedRaw, Refuses};
ghost use Rattle.bb_words.specs.declared.command.Command.{Command};
ghost use Rattle.bb_words.specs.declared.command.Command.TheVariants.{Raw};
ghost use Rattle.bb_words.specs.Words.{Magic, Mode, raw_of, area_spelt};
ghost use Rattle.bb_words.specs.Words.{words_from};

use crate::word::{ends_at, number_at, word_at};
use crate::{RawAction, RawCommand, WordsError};
use bb_base::{AREA_LIMIT, Bytes, TextList};
use hex::FromHexError;
use std::alloc::Global;

/// Reads the words after `raw`.
pub(crate) fn read_raw(alloc: Global, words: &TextList) -> Result<RawCommand, WordsError>
    ensures ok { IfOk result (λ raw. words_from 1 Magic (drop 1 words.now) ≡ Ok (Raw raw)) }
    ensures sized { IfOk result IsSizedRaw }
    ensures refused { IfErr result (Refuses (words_from 1 Magic (drop 1 words.now))) }
{
    let magic = number_at(words, 1, u32::MAX)?;
    let area_len = number_at(words, 2, AREA_LIMIT)?;
    let action = read_action(alloc, words, area_len)?;
    Ok(RawCommand {
        magic,
        area_len,
        action,
    })
}

// Reads the words after the area's length.
fn read_action(alloc: Global, words: &TextList, len: u32) -> Result<RawAction, WordsError>
    ensures ok { IfOk result (λ action. (magic : ℕ)
        → words_from 3 (Mode magic len) (drop 3 words.now) ≡ Ok (raw_of magic len action)) }
    ensures sized { IfOk result (IsSizedFor len) }
    ensures refused { IfErr result (λ cause. (magic : ℕ)
        → Refuses (words_from 3 (Mode magic len) (drop 3 words.now)) cause) }
{
    let word = word_at(words, 3)?;
    if word == "-g" {
        ends_at(words, 4)?;
        return Ok(RawAction::Look);
    }
    if word == "-s" {
        let area = area_at(alloc, words, 4, len)?;
        ends_at(words, 5)?;
        return Ok(RawAction::Write(area));
    }
    Err(WordsError::BadWord(3))
}

// The area that the digits at this place spell, of so many bytes.
fn area_at(alloc: Global, words: &TextList, place: usize, len: u32) -> Result<Bytes, WordsError>
    ensures ok { IfOk result (λ area.
        option_and_then (area_spelt len) (slice_get words.now place) ≡ Some area) }
    ensures sized { IfOk result (λ area. length area ≡ len) }
    ensures refused { IfErr result (Refuses
        (ok_or (option_and_then (area_spelt len) (slice_get words.now place)) place)) }
{
    let digits = word_at(words, place)?;
    if digits.len() != 2 * len as usize {
        return Err(WordsError::BadWord(place));
    }
    let decoded = match hex::decode(alloc, digits) {
        Ok(decoded) => decoded,
        Err(FromHexError::OutOfMemory) => return Err(WordsError::NoMemory),
        Err(_) => return Err(WordsError::BadWord(place)),
    };
    let mut area = Bytes::none(alloc);
    area.add(decoded.as_slice())?;
    Ok(area)
}
