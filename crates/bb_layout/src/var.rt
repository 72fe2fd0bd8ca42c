use bb_base::{Bytes, Text, TextList};
use bb_vars::Kind;

/// A variable of a layout.
#[derive(Debug, Drop)]
pub struct Var {
    /// The names on its path, each up to its `@`, joined by `.`.
    pub name: Text,
    /// The full names of the nodes below the state node that lead to it, its own last.
    pub path: TextList,
    /// Where its bytes begin in the area.
    pub at: u32,
    /// How many bytes it has.
    pub size: u32,
    pub kind: Kind,
    /// The bytes that it has where no copy is there.
    pub default: Bytes,
}
