use crate::ScriptError;

/// Which of the language's words a word spells, without quotes and expansions.
#[derive(Clone, Copy, Debug, PartialEq, Eq)]
pub(crate) enum Keyword {
    /// None of them.
    Plain,
    If,
    Then,
    Elif,
    Else,
    Fi,
    For,
    In,
    Do,
    Done,
}

/// What a token of a script is.
#[derive(Clone, Copy, Debug, PartialEq, Eq)]
pub(crate) enum ScriptTokenKind {
    Word(Keyword),
    /// A word that is malformed, and why.
    BadWord(ScriptError),
    /// `;`
    Semi,
    /// The end of a line.
    Line,
    /// `&&`
    And,
    /// `||`
    Or,
    /// A character that begins nothing of the language.
    Stray,
    /// The text's end, after a `\`.
    Cut,
    /// The text's end.
    End,
}

/// What stands between two words at a character.
#[derive(Clone, Copy, Debug, PartialEq, Eq)]
pub(crate) enum Lexeme {
    /// Nothing, and how many bytes more are passed over.
    Blank(usize),
    /// A token that is no word, and how many bytes more it has.
    Mark(ScriptTokenKind, usize),
    /// A `\` at the text's end.
    CutOff,
    /// A word begins.
    Begins,
}
