use bb_base::{Bytes, List, Text};

/// A property of a node.
#[derive(Debug, Drop)]
pub struct Prop {
    pub name: Text,
    /// The value's bytes, none for a property without a value.
    pub value: Bytes,
}

/// The properties of a node, in their order.
pub type PropList = List<Prop>;
