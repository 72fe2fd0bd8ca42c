ghost use Rattle.std.specs.Prelude.{◌≡◌, ◌++◌, ◌∷◌, [], OnOk, IfSome, IfNone};
ghost use Rattle.bb_script.specs.Words.{plain_front, letters_alone, special_atom, word_atoms};
ghost use Rattle.bb_script.specs.Words.{Letter};

use bb_base::NoMemory;
use std::alloc::Global;

/// What stands in a word beside letters, which are its bytes that stand for themselves.
#[derive(Debug, Drop)]
pub enum Special {
    /// A quoted part begins, or a quoted letter comes next.
    Quote,
    /// The value of the variable of this name, which is cut into fields at blanks.
    Value(Vec<u8>),
    /// The value of the variable of this name, as it is.
    QuotedValue(Vec<u8>),
    /// The last status, `$?`.
    Status,
}

/// Letters of a word, and what comes after them.
#[derive(Debug, Drop)]
pub struct WordPart {
    pub letters: Vec<u8>,
    pub special: Special,
}

/// A word of a script, as it is before its expansion.
#[derive(Debug, Drop)]
pub struct Word {
    pub parts: Vec<WordPart>,
    /// The letters after the last part.
    pub letters: Vec<u8>,
}

impl Word {
    pub(crate) fn empty(alloc: Global) -> Word
        ensures { word_atoms result ≡ [] }
    {
        Word {
            parts: Vec::new(alloc),
            letters: Vec::new(alloc),
        }
    }

    pub(crate) fn add_letter(&mut self, letter: u8) -> Result<(), NoMemory>
        ensures { OnOk result (word_atoms self.new ≡ word_atoms self.old ++ Letter letter ∷ []) }
    {
        self.letters.push(letter)?;
        Ok(())
    }

    pub(crate) fn add_special(&mut self, alloc: Global, special: Special) -> Result<(), NoMemory>
        ensures { OnOk result
            (word_atoms self.new ≡ word_atoms self.old ++ special_atom special ∷ []) }
    {
        let letters = std::mem::replace(&mut self.letters, Vec::new(alloc));
        self.parts.push(WordPart { letters, special })?;
        Ok(())
    }

    /// The letters before all else in the word.
    #[tactic(auto, using(crate::proofs::WordLemmas::front_alone, crate::proofs::WordLemmas::front_of_part))]
    pub(crate) fn front(&self) -> &[u8]
        ensures { result.now ≡ plain_front (word_atoms self.now) }
    {
        match self.parts.as_slice().split_first() {
            None => self.letters.as_slice(),
            Some((part, _)) => part.letters.as_slice(),
        }
    }

    /// The word's letters, where it has nothing else.
    #[tactic(auto, using(crate::proofs::WordLemmas::text_alone, crate::proofs::WordLemmas::no_text_of_part))]
    pub(crate) fn plain(&self) -> Option<&[u8]>
        ensures some { IfSome result (λ text. letters_alone (word_atoms self.now) ≡ Some text.now) }
        ensures none { IfNone result (letters_alone (word_atoms self.now) ≡ None) }
    {
        match self.parts.as_slice().split_first() {
            None => Some(self.letters.as_slice()),
            Some(_) => None,
        }
    }
}
