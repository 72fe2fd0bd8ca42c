use crate::Word;
use crate::token_kind::ScriptTokenKind;
use std::alloc::Global;

/// What each part of the reader is given.
#[derive(Clone, Copy)]
pub(crate) struct ScriptInput {
    pub alloc: Global,
    /// How many bytes the whole text has.
    pub total: usize,
}

/// A token of a script.
#[derive(Clone, Copy, Debug)]
pub(crate) struct ScriptToken<'a> {
    pub kind: ScriptTokenKind,
    /// The offset at which it begins.
    pub at: usize,
    /// The text after it.
    pub rest: &'a [u8],
}

/// How many `if` and `for` are open, and the offset of the innermost.
#[derive(Clone, Copy, Debug)]
pub(crate) struct Nesting {
    pub level: usize,
    pub opened: Option<usize>,
}

/// A `for` before its body.
#[derive(Debug, Drop)]
pub(crate) struct LoopStart {
    /// How deep the `for` stands itself.
    pub outside: Nesting,
    pub name: Vec<u8>,
    pub words: Vec<Word>,
}
