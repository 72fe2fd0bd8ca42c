use bb_base::NoMemory;

/// Why words are no command.
#[derive(Clone, Copy, Debug, PartialEq, Eq)]
pub enum WordsError {
    /// The word at this place, from 0, is the first that no command has there after the words
    /// before it. Where a word is missing at the end, the place is the number of words.
    BadWord(usize),
    /// An allocation was refused. This says nothing of the words.
    NoMemory,
}

impl From<NoMemory> for WordsError {
    ghost use Rattle.std.specs.Prelude.{◌≡◌};
    ghost use Rattle.bb_words.specs.declared.error.WordsError.{WordsError};
    ghost use Rattle.bb_words.specs.declared.error.WordsError.TheVariants.{NoMemory};

    ghost from_gives = { λ _ e. e ≡ NoMemory };

    fn from(_: NoMemory) -> Self {
        WordsError::NoMemory
    }
}
