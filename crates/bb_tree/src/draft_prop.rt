use crate::PartList;
use bb_base::{List, Text};

/// A property of a draft's node.
#[derive(Debug, Drop)]
pub struct DraftProp {
    pub name: Text,
    /// The pieces of the value, none for a property without a value.
    pub parts: PartList,
}

/// The properties of a draft's node, in their order.
pub type DraftPropList = List<DraftProp>;
