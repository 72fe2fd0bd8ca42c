ghost use Rattle.std.specs.Prelude.{◌≡◌, find};
ghost use Rattle.std.specs.Option.{option_copied, option_map};
ghost use Rattle.bb_tree.specs.Node.{preorder};
ghost use Rattle.bb_tree.specs.NodeViews.{branch_of};
ghost use Rattle.bb_layout.specs.StateNode as spec;

use crate::fields::{base_name, has_string, text};
use bb_tree::{Node, Tree};

/// The node that counts as a state node and to which `/aliases` leads by this name.
pub(crate) fn node_by_alias<'a>(tree: &'a Tree, name: &str) -> Option<&'a Node>
    ensures { option_map branch_of (option_copied result)
        ≡ spec.node_by_alias (branch_of tree.now.root) name.now }
{
    let path = text(tree.find("/aliases")?.prop(name)?)?;
    let node = tree.find(path)?;
    counts(node).then_some(node)
}

/// The first node in preorder, from `node` on, that counts as a state node, and that is called
/// `name` up to its `@` where a name is given.
pub(crate) fn first_wanted<'a>(node: &'a Node, name: Option<&str>) -> Option<&'a Node>
    ensures { option_map branch_of (option_copied result)
        ≡ find (spec.is_wanted (option_copied name.entry)) (preorder (branch_of node.now)) }
{
    if is_wanted(node, name) {
        return Some(node);
    }
    for child in &node.nodes.inner {
        if let Some(found) = first_wanted(child, name) {
            return Some(found);
        }
    }
    None
}

fn is_wanted(node: &Node, name: Option<&str>) -> bool
    ensures { result ≡ spec.is_wanted (option_copied name.entry) (branch_of node.now) }
{
    if !counts(node) {
        return false;
    }
    match name {
        Some(name) => base_name(node.name.as_str()) == name,
        None => true,
    }
}

// A node counts where its `compatible` is a list of strings that has `barebox,state`.
fn counts(node: &Node) -> bool
    ensures { result ≡ spec.counts (branch_of node.now) }
{
    match node.prop("compatible") {
        Some(value) => has_string(value, "barebox,state"),
        None => false,
    }
}
