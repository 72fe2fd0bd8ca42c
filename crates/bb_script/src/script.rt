use crate::Word;

/// When a step is run, by the last status.
#[derive(Clone, Copy, Debug, PartialEq, Eq)]
pub enum When {
    Always,
    /// After `&&`: where the status is 0.
    OnSuccess,
    /// After `||`: where the status isn't 0.
    OnFailure,
}

/// Steps, one after another.
#[cycle(script)]
#[derive(Debug, Drop)]
pub struct Script {
    pub steps: Vec<ScriptStep>,
}

#[cycle(script)]
#[derive(Debug, Drop)]
pub struct ScriptStep {
    pub when: When,
    pub command: ScriptCommand,
}

#[cycle(script)]
#[derive(Debug, Drop)]
pub enum ScriptCommand {
    /// A command and its words, of which there is one at least.
    Call(Vec<Word>),
    /// A variable is set.
    Set(Assignment),
    If(Choice),
    For(ForLoop),
}

/// A word that begins with a name and `=`, none of which is quoted or comes of an expansion.
#[derive(Debug, Drop)]
pub struct Assignment {
    /// The whole word.
    pub word: Word,
    /// How many bytes the name has, one at least.
    pub name_len: usize,
}

/// What an `if` tries, one after another, and its `else`, where it has one.
#[cycle(script)]
#[derive(Debug, Drop)]
pub struct Choice {
    pub branches: Vec<ScriptBranch>,
    pub other: Otherwise,
}

/// An `if` or `elif`, and its `then`.
#[cycle(script)]
#[derive(Debug, Drop)]
pub struct ScriptBranch {
    pub test: Script,
    pub body: Script,
}

/// What an `if` does where no branch is taken.
#[cycle(script)]
#[derive(Debug, Drop)]
pub enum Otherwise {
    Nothing,
    Else(Script),
}

/// A body that is run once for each field of the words.
#[cycle(script)]
#[derive(Debug, Drop)]
pub struct ForLoop {
    pub name: Vec<u8>,
    pub words: Vec<Word>,
    pub body: Script,
}
