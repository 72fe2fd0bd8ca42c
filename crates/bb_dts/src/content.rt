use bb_base::{NoMemory, Text};
use bb_tree::{DraftNode, DraftNodeList, DraftPropList};
use std::alloc::Global;

/// What stands between a node's `{` and `}`.
#[derive(Debug, Drop)]
pub(crate) struct Content {
    pub props: DraftPropList,
    pub nodes: DraftNodeList,
}

impl Content {
    ghost use Rattle.std.specs.Prelude.{◌≡◌, ◌++◌, ◌∷◌, [], OnOk};
    ghost use Rattle.bb_tree.specs.DraftViews.{drafts_of};
    ghost use Rattle.bb_dts.specs.Descent.{nodes_read, node_of_content};

    pub(crate) fn none(alloc: Global) -> Content
        ensures props { result.props ≡ [] }
        ensures nodes { drafts_of result.nodes ≡ [] }
        ensures counted { nodes_read result ≡ 0 }
    {
        Content {
            props: DraftPropList::none(alloc),
            nodes: DraftNodeList::none(alloc),
        }
    }

    /// Adds a node with this content.
    pub(crate) fn add_node(&mut self, name: Text, content: Content) -> Result<(), NoMemory>
        ensures nodes { OnOk result (drafts_of self.new.nodes
            ≡ drafts_of self.old.nodes ++ node_of_content name content ∷ []) }
        ensures props { OnOk result (self.new.props ≡ self.old.props) }
    {
        let Content { props, nodes } = content;
        self.nodes.push(DraftNode { name, props, nodes })
    }
}

/// What was read in a body.
#[derive(Clone, Copy, Debug, PartialEq, Eq)]
pub(crate) enum Item {
    /// A property, with its `;`.
    IsProp,
    /// A node, with its `;`.
    IsNode,
    /// The `}`.
    IsEnd,
}
