ghost use Rattle.std.specs.Prelude.{◌≡◌, ◌==◌, ◌++◌, ◌∷◌, [], length, IfOk, OnOk, OnErr, slice_get};
ghost use Rattle.std.specs.Option.{option_copied};

use crate::PropList;
use crate::phandle::phandle_in;
use bb_base::{NoMemory, Text};
use std::alloc::Global;

/// A node of a finished tree.
#[cycle(node)]
#[derive(Debug, Drop)]
pub struct Node {
    /// The full name, with the unit address where there is one. The root's is empty.
    pub name: Text,
    pub props: PropList,
    pub nodes: NodeList,
}

/// A list of nodes that grows at its end. Clauses see the list of its nodes as values.
#[cycle(node)]
#[derive(Debug, Drop)]
pub struct NodeList {
    pub inner: Vec<Node>,
}

impl NodeList {
    ghost use Rattle.bb_tree.specs.NodeViews.{branch_of, branches_of, branch_seen};

    /// No nodes.
    pub fn none(alloc: Global) -> NodeList
        ensures { branches_of result ≡ [] }
    {
        NodeList {
            inner: Vec::new(alloc),
        }
    }

    /// No nodes, with room for so many.
    pub(crate) fn with_room(alloc: Global, room: usize) -> Result<NodeList, NoMemory>
        ensures { IfOk result (λ list. branches_of list ≡ []) }
    {
        let inner = Vec::with_capacity(alloc, room)?;
        Ok(NodeList { inner })
    }

    /// Appends the node. It is dropped where memory is refused.
    pub fn push(&mut self, node: Node) -> Result<(), NoMemory>
        ensures ok { OnOk result (branches_of self.new
            ≡ branches_of self.old ++ branch_of node ∷ []) }
        ensures err { OnErr result (branches_of self.new ≡ branches_of self.old) }
    {
        // many nodes hold one node
        if self.inner.is_empty() {
            self.inner.reserve_exact(1)?;
        }
        self.inner.push(node)?;
        Ok(())
    }

    pub fn len(&self) -> usize
        ensures { result ≡ length (branches_of self.now) }
    {
        self.inner.len()
    }

    pub fn is_empty(&self) -> bool
        ensures { result ≡ (length (branches_of self.now) == 0) }
    {
        self.inner.is_empty()
    }

    /// The node at a place, `None` exactly from the length on.
    pub fn get(&self, place: usize) -> Option<&Node>
        ensures { branch_seen result ≡ slice_get (branches_of self.now) place }
    {
        self.inner.get(place)
    }
}

impl Node {
    ghost use Rattle.bb_tree.specs.NodeViews.{branch_of};
    ghost use Rattle.bb_tree.specs.Paths.{prop_of};
    ghost use Rattle.bb_tree.specs.Phandle.{phandle_of, has_phandle};

    /// The value of the first property of that name.
    pub fn prop(&self, name: &str) -> Option<&[u8]>
        ensures { option_copied result ≡ prop_of name.now (branch_of self.now) }
    {
        for prop in self.props.as_slice() {
            if name == prop.name.as_str() {
                return Some(prop.value.as_slice());
            }
        }
        None
    }

    pub(crate) fn has_phandle(&self, phandle: u32) -> bool
        ensures { result ≡ has_phandle phandle (branch_of self.now) }
    {
        match self.phandle() {
            Some(own) => phandle == own,
            None => false,
        }
    }

    fn phandle(&self) -> Option<u32>
        ensures { result ≡ phandle_of (branch_of self.now) }
    {
        phandle_in(self.prop("phandle")?)
    }
}
