ghost use Rattle.std.specs.Prelude.{◌≡◌, find};
ghost use Rattle.std.specs.Option.{option_copied, option_map};
ghost use Rattle.bb_tree.specs.Node.{preorder};
ghost use Rattle.bb_tree.specs.NodeViews.{branch_of};
ghost use Rattle.bb_install.specs.Slot as spec;

use crate::cells::string;
use bb_tree::Node;

/// The first node in preorder, from `node` on, whose `label` is this string.
pub(crate) fn first_labelled<'a>(node: &'a Node, label: &str) -> Option<&'a Node>
    ensures { option_map branch_of (option_copied result)
        ≡ find (spec.has_label label.now) (preorder (branch_of node.now)) }
{
    if has_label(node, label) {
        return Some(node);
    }
    for child in &node.nodes.inner {
        if let Some(found) = first_labelled(child, label) {
            return Some(found);
        }
    }
    None
}

fn has_label(node: &Node, label: &str) -> bool
    ensures { result ≡ spec.has_label label.now (branch_of node.now) }
{
    match node.prop("label") {
        Some(value) => is_slot_label(value, label),
        None => false,
    }
}

// Whether a value is a string, and that string is the label.
fn is_slot_label(value: &[u8], label: &str) -> bool
    ensures { result ≡ spec.is_slot_label label.now value.now }
{
    match string(value) {
        Some(string) => string == label.as_bytes(),
        None => false,
    }
}
