use crate::PartList;
use crate::table::NamedEntries;
use bb_base::Text;

/// A node of a draft in the list of all its nodes, each after the node that it stands in. The first
/// is the root.
#[derive(Drop)]
pub(crate) struct Slot {
    /// Where the node that it stands in is in the list.
    pub parent: usize,
    pub name: Text,
    pub props: NamedEntries<PartList>,
    /// The names of the nodes in it, and where each is in the list.
    pub nodes: NamedEntries<usize>,
}
