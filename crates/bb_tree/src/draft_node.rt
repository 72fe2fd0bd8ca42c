ghost use Rattle.std.specs.Prelude.{◌≡◌, ◌==◌, ◌++◌, ◌∷◌, [], length, OnOk, OnErr, slice_get};

use crate::DraftPropList;
use bb_base::{NoMemory, Text};
use std::alloc::Global;

/// A node of a draft, with references in its values.
#[cycle(draft_node)]
#[derive(Debug, Drop)]
pub struct DraftNode {
    /// The full name, with the unit address where there is one. The root's is empty.
    pub name: Text,
    pub props: DraftPropList,
    pub nodes: DraftNodeList,
}

/// A list of nodes that grows at its end. Clauses see the list of its nodes as values.
#[cycle(draft_node)]
#[derive(Debug, Drop)]
pub struct DraftNodeList {
    pub inner: Vec<DraftNode>,
}

impl DraftNodeList {
    ghost use Rattle.bb_tree.specs.DraftViews.{draft_of, drafts_of, draft_seen};

    /// No nodes.
    pub fn none(alloc: Global) -> DraftNodeList
        ensures { drafts_of result ≡ [] }
    {
        DraftNodeList {
            inner: Vec::new(alloc),
        }
    }

    /// Appends the node. It is dropped where memory is refused.
    pub fn push(&mut self, node: DraftNode) -> Result<(), NoMemory>
        ensures ok { OnOk result (drafts_of self.new ≡ drafts_of self.old ++ draft_of node ∷ []) }
        ensures err { OnErr result (drafts_of self.new ≡ drafts_of self.old) }
    {
        self.inner.push(node)?;
        Ok(())
    }

    pub fn len(&self) -> usize
        ensures { result ≡ length (drafts_of self.now) }
    {
        self.inner.len()
    }

    pub fn is_empty(&self) -> bool
        ensures { result ≡ (length (drafts_of self.now) == 0) }
    {
        self.inner.is_empty()
    }

    /// The node at a place, `None` exactly from the length on.
    pub fn get(&self, place: usize) -> Option<&DraftNode>
        ensures { draft_seen result ≡ slice_get (drafts_of self.now) place }
    {
        self.inner.get(place)
    }
}
