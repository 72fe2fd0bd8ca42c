ghost use Rattle.std.specs.Prelude.{◌≡◌, ◌∷◌, ◌++◌, [], IfOk, OnOk};
ghost use Rattle.bb_script.specs.Reading.{IsStillWord, open_seen, step_taken, word_seen};
ghost use Rattle.bb_script.specs.Tokens.{bad_word, keyword_in, value_atom, word_step};
ghost use Rattle.bb_script.specs.Tokens.{word_token};
ghost use Rattle.bb_script.specs.Words.{Letter, Quote, word_atoms};

use crate::lexeme::keyword_of;
use crate::piece::{Quoting, WordPiece, first_bytes, passed};
use crate::token::ScriptToken;
use crate::token_kind::{Keyword, ScriptTokenKind};
use crate::{ScriptError, Special, Word};
use bb_base::NoMemory;
use std::alloc::Global;

/// A word of which so much was read.
#[derive(Debug, Drop)]
pub(crate) struct WordSoFar {
    /// The offset at which it begins.
    pub at: usize,
    pub word: Word,
    pub quoting: Quoting,
}

/// What a piece did to a word.
#[derive(Clone, Copy, Debug)]
pub(crate) enum PieceTaken {
    /// The word goes on, after so many bytes more.
    GoesOn(usize),
    /// The word has ended before the piece.
    HasEnded,
    /// The word is malformed.
    IsBad,
}

impl WordSoFar {
    /// Adds what stands at a character, with this text after it.
    pub(crate) fn take(
        &mut self,
        alloc: Global,
        after: &[u8],
        piece: WordPiece,
    ) -> Result<PieceTaken, NoMemory>
        ensures stepped { IfOk result (λ taken.
            word_step (open_seen self.old) after.now piece
            ≡ step_taken taken (open_seen self.new)) }
        ensures still { IfOk result (λ taken.
            IsStillWord taken (open_seen self.old) (open_seen self.new)) }
    {
        match piece {
            WordPiece::Ends => Ok(PieceTaken::HasEnded),
            WordPiece::Refuses => Ok(PieceTaken::IsBad),
            WordPiece::Drops => Ok(PieceTaken::GoesOn(1)),
            WordPiece::Letter(c, more) => {
                self.word.add_letter(c)?;
                Ok(PieceTaken::GoesOn(more))
            }
            WordPiece::Escaped(c) => {
                self.add_escaped(alloc, c)?;
                Ok(PieceTaken::GoesOn(1))
            }
            WordPiece::Opens(quoting) => {
                self.word.add_special(alloc, Special::Quote)?;
                self.quoting = quoting;
                Ok(PieceTaken::GoesOn(0))
            }
            WordPiece::Closes => {
                self.quoting = Quoting::Bare;
                Ok(PieceTaken::GoesOn(0))
            }
            WordPiece::Value(front, len, past) => {
                self.add_value(alloc, first_bytes(passed(after, front), len))?;
                Ok(PieceTaken::GoesOn(past))
            }
            WordPiece::Status => {
                self.word.add_special(alloc, Special::Status)?;
                Ok(PieceTaken::GoesOn(1))
            }
        }
    }

    fn add_escaped(&mut self, alloc: Global, c: u8) -> Result<(), NoMemory>
        ensures { OnOk result (open_seen self.new ≡ record (open_seen self.old) {
          atoms = word_atoms self.old.word ++ Quote ∷ Letter c ∷ [];
        }) }
    {
        self.word.add_special(alloc, Special::Quote)?;
        self.word.add_letter(c)
    }

    fn add_value(&mut self, alloc: Global, name: &[u8]) -> Result<(), NoMemory>
        ensures { OnOk result (open_seen self.new ≡ record (open_seen self.old) {
          atoms = word_atoms self.old.word ++ value_atom self.old.quoting name.now ∷ [];
        }) }
    {
        let name = name.to_vec(alloc)?;
        let special = match self.quoting {
            Quoting::Bare => Special::Value(name),
            Quoting::Single(_) => Special::QuotedValue(name),
            Quoting::Double(_) => Special::QuotedValue(name),
        };
        self.word.add_special(alloc, special)
    }

    /// The word as a token, with the text after it.
    pub(crate) fn token(self, rest: &[u8]) -> (ScriptToken<'_>, Word)
        ensures seen { word_seen result.0 result.1 ≡ word_token (open_seen self) }
        ensures rest { result.0.rest.now ≡ rest.now }
    {
        let kind = ScriptTokenKind::Word(keyword_in(&self.word));
        let at = self.at;
        (ScriptToken { kind, at, rest }, self.word)
    }

    /// The malformed word as a token, after which nothing is read.
    pub(crate) fn bad_token<'a>(&self, alloc: Global, e: ScriptError) -> (ScriptToken<'a>, Word)
        ensures seen { word_seen result.0 result.1 ≡ bad_word (open_seen self.now) e }
        ensures rest { result.0.rest.now ≡ [] }
    {
        let token = ScriptToken {
            kind: ScriptTokenKind::BadWord(e),
            at: self.at,
            rest: &[],
        };
        (token, Word::empty(alloc))
    }
}

fn keyword_in(word: &Word) -> Keyword
    ensures { result ≡ keyword_in (word_atoms word.now) }
{
    match word.plain() {
        Some(text) => keyword_of(text),
        None => Keyword::Plain,
    }
}
