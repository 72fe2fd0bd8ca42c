ghost use Rattle.std.specs.Prelude.{◌≡◌, ◌≤◌, ◌∷◌, ◌++◌, [], IfOk, IfErr, OnOk, map};
ghost use Rattle.bb_script.specs.Descent.{RefusesWalk, text_walk, tokens_left};
ghost use Rattle.bb_script.specs.TokenWalks.{token_walk};
ghost use Rattle.bb_script.specs.Descent.{walk_after};
ghost use Rattle.bb_script.specs.Tree.{command_of_words, name_set_alone_len, name_set_len};
ghost use Rattle.bb_script.specs.Views.{command_tree};
ghost use Rattle.bb_script.specs.Places.{AfterOperator, Words};
ghost use Rattle.bb_script.specs.Words.{word_atoms};

use crate::misplaced::refused_at;
use crate::next_token::next_token;
use crate::piece::{begins_with, passed, variable_len};
use crate::token::{Nesting, ScriptInput, ScriptToken};
use crate::token_kind::{Keyword, ScriptTokenKind};
use crate::{Assignment, ScriptCommand, ScriptError, Word};

/// The word that a command begins with, after `&&` or `||`, and the ends of lines.
#[tactic(auto, using(crate::proofs::WalkLemmas::operator_next))]
pub(crate) fn command_start<'a>(
    input: ScriptInput,
    nesting: Nesting,
    text: &'a [u8],
) -> Result<(Keyword, ScriptToken<'a>, Word), ScriptError>
    ensures ok { IfOk result (λ r. text_walk input nesting AfterOperator text.now
        ≡ token_walk input nesting r.0 r.1 r.2) }
    ensures refused { IfErr result (RefusesWalk (text_walk input nesting AfterOperator text.now)) }
    ensures within { IfOk result (λ r.
        tokens_left input r.1.rest.now ≤ tokens_left input text.now) }
{
    let mut rest = text;
    loop {
        let (token, word) = next_token(input, rest)?;
        match token.kind {
            ScriptTokenKind::Word(keyword) => return Ok((keyword, token, word)),
            ScriptTokenKind::Line => rest = token.rest,
            _ => return Err(refused_at(nesting, &token)),
        }
    }
}

/// The command that begins with this word, before this text.
pub(crate) fn read_simple<'a>(
    input: ScriptInput,
    nesting: Nesting,
    word: Word,
    text: &'a [u8],
) -> Result<(ScriptCommand, &'a [u8]), ScriptError>
    ensures ok { IfOk result (λ r.
        text_walk input nesting (Words (word_atoms word ∷ [])) text.now
        ≡ walk_after input nesting (command_tree r.0) r.1.now) }
    ensures refused { IfErr result
        (RefusesWalk (text_walk input nesting (Words (word_atoms word ∷ [])) text.now)) }
    ensures within { IfOk result (λ r. tokens_left input r.1.now ≤ tokens_left input text.now) }
{
    let mut words = Vec::new(input.alloc);
    words.push(word)?;
    let rest = read_words(input, nesting, &mut words, text)?;
    Ok((command_of_words(words), rest))
}

// The words of a command, of which some were read, to what follows them.
#[tactic(auto, using(crate::proofs::WalkLemmas::words_next))]
fn read_words<'a>(
    input: ScriptInput,
    nesting: Nesting,
    words: &mut Vec<Word>,
    text: &'a [u8],
) -> Result<&'a [u8], ScriptError>
    ensures ok { IfOk result (λ rest.
        text_walk input nesting (Words (map word_atoms words.old.items)) text.now
        ≡ walk_after input nesting (command_of_words (map word_atoms words.new.items)) rest.now) }
    ensures refused { IfErr result (RefusesWalk
        (text_walk input nesting (Words (map word_atoms words.old.items)) text.now)) }
    ensures within { IfOk result (λ rest.
        tokens_left input rest.now ≤ tokens_left input text.now) }
{
    let mut rest = text;
    loop {
        let (token, word) = next_token(input, rest)?;
        match token.kind {
            ScriptTokenKind::Word(_) => {
                add_word(words, word)?;
                rest = token.rest;
            }
            ScriptTokenKind::BadWord(e) => return Err(e),
            _ => return Ok(rest),
        }
    }
}

fn add_word(words: &mut Vec<Word>, word: Word) -> Result<(), ScriptError>
    ensures ok { OnOk result (map word_atoms words.new.items
        ≡ map word_atoms words.old.items ++ word_atoms word ∷ []) }
    ensures memory { IfErr result (λ e. e ≡ ScriptError.NoMemory) }
{
    words.push(word)?;
    Ok(())
}

// A command of these words.
fn command_of_words(mut words: Vec<Word>) -> ScriptCommand
    ensures { command_tree result ≡ command_of_words (map word_atoms words.items) }
{
    let name_len = name_set_len(words.as_slice());
    if name_len > 0 {
        if let Some(word) = words.pop() {
            return ScriptCommand::Set(Assignment { word, name_len });
        }
    }
    ScriptCommand::Call(words)
}

// How long the name is that one word alone sets, or 0.
fn name_set_len(words: &[Word]) -> usize
    ensures { result ≡ name_set_alone_len (map word_atoms words.now) }
{
    match words.split_first() {
        None => 0,
        Some((word, others)) => {
            if !others.is_empty() {
                return 0;
            }
            word_set_len(word)
        }
    }
}

fn word_set_len(word: &Word) -> usize
    ensures { result ≡ name_set_len (word_atoms word.now) }
{
    let front = word.front();
    let n = variable_len(front);
    if begins_with(b'=', passed(front, n)) {
        return n;
    }
    0
}
