use bb_base::{Bytes, List, Text};

/// A piece of a draft's value. A value is its pieces joined.
#[derive(Debug, Drop)]
pub enum Part {
    /// These bytes.
    Bytes(Bytes),
    /// A reference inside `< >`: the phandle of the labelled node, as 4 bytes, big-endian.
    Cell {
        label: Text,
        /// The offset of the reference in the text, for a refusal.
        at: usize,
    },
    /// A reference outside `< >`: the path of the labelled node and a zero byte.
    Path {
        label: Text,
        /// The offset of the reference in the text, for a refusal.
        at: usize,
    },
}

/// The pieces of a draft's value, in their order.
pub type PartList = List<Part>;
