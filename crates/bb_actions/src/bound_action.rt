use bb_base::{Bytes, List, Text};

/// An action on the variables of a layout.
#[derive(Debug, Drop)]
pub enum BoundAction {
    /// `-s`: these bytes are put into the area from this byte on. They are the value of a variable.
    Put { at: u32, bytes: Bytes },
    /// `-g`: the value of the variable of this name is sent.
    Get(Text),
    /// `-d`: each variable is sent with its value.
    Dump,
    /// `--dump-shell`: the same for a shell.
    DumpShell,
}

/// Actions on the variables of a layout, in the order of the words.
pub type BoundActionList = List<BoundAction>;
