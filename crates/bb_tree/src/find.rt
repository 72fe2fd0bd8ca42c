ghost use Rattle.std.specs.Prelude.{◌≡◌};
ghost use Rattle.bb_tree.specs.Node.{forest};
ghost use Rattle.bb_tree.specs.NodeViews.{branch_of, branches_of, branch_seen};
ghost use Rattle.bb_tree.specs.Paths.{names_between, node_at, child_of};
ghost use Rattle.bb_tree.specs.Phandle.{node_with};

use crate::{Node, NodeList};

/// The node that the names between the slashes lead to.
pub(crate) fn find_behind<'a>(root: &'a Node, names: &str) -> Option<&'a Node>
    ensures { branch_seen result ≡ node_at (names_between names.now) (branch_of root.now) }
{
    let mut node = root;
    for name in names.split('/') {
        node = child_named(&node.nodes, name)?;
    }
    Some(node)
}

fn child_named<'a>(nodes: &'a NodeList, name: &str) -> Option<&'a Node>
    ensures { branch_seen result ≡ child_of name.now (forest (branches_of nodes.now)) }
{
    for node in &nodes.inner {
        if name == node.name.as_str() {
            return Some(node);
        }
    }
    None
}

/// The first node in preorder, from `node` on, that has this phandle.
pub(crate) fn first_with(node: &Node, phandle: u32) -> Option<&Node>
    ensures { branch_seen result ≡ node_with phandle (branch_of node.now) }
{
    if node.has_phandle(phandle) {
        return Some(node);
    }
    for child in &node.nodes.inner {
        if let Some(found) = first_with(child, phandle) {
            return Some(found);
        }
    }
    None
}
