/// What a token is.
#[derive(Clone, Copy, Debug, PartialEq, Eq)]
pub(crate) enum TokenKind {
    /// `/dts-v1/`
    DtsV1,
    /// `/memreserve/`
    Memreserve,
    /// A `/` by itself.
    Slash,
    OpenBrace,
    CloseBrace,
    Semicolon,
    Equals,
    /// `<`
    Less,
    /// `>`
    Greater,
    /// `[`
    OpenBracket,
    /// `]`
    CloseBracket,
    /// A `,` by itself, in a value.
    Comma,
    /// A string between `"`.
    Quoted,
    /// `&` and a label's name.
    Reference,
    /// A label's name and `:`.
    Label,
    /// The name of a node or property.
    Name,
    Number,
    /// Two hexadecimal digits inside `[ ]`.
    Byte,
    /// The end of the text.
    End,
}

/// In which way a place reads words.
#[derive(Clone, Copy, Debug, PartialEq, Eq)]
pub(crate) enum Mode {
    /// As names and labels, where a line of C's preprocessor could stand.
    Directives,
    /// As names and labels.
    Names,
    /// As names without `,`, which is a mark: in a value, outside of brackets.
    Values,
    /// As numbers: inside `< >` and in a reserve.
    Numbers,
    /// As pairs of hexadecimal digits: inside `[ ]`.
    Pairs,
}

/// What begins at a character. A number is how many bytes it has after that character.
#[derive(Clone, Copy, Debug, PartialEq, Eq)]
pub(crate) enum Lexed {
    /// Blanks or a comment.
    Blank(usize),
    Token(TokenKind, usize),
    BadToken,
    LeftOut,
}
