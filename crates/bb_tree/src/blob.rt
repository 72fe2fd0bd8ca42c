ghost use Rattle.std.specs.Prelude.{◌≡◌, ◌≤◌, ◌<◌, ◌+◌, ◌-◌, ◌^◌, false, length, map, take};
ghost use Rattle.bb_tree.specs.Blob.{blob_text, devicetree_of, length_in_64_bits, has_name};
ghost use Rattle.bb_tree.specs.Blob.{whole_words};
ghost use Rattle.bb_tree.specs.BlobLength.{nodes_length, props_length, node_names, names_of_props};
ghost use Rattle.bb_tree.specs.BlobLength.{name_growth, growth_at, StandAt};
ghost use Rattle.bb_tree.specs.Node.{grow, empty};
ghost use Rattle.bb_tree.specs.NodeViews.{branch_of, prop_pair};

use crate::{Node, PropList, Tree};

/// The header, the pair of zeros after the reservation list, and the token FDT_END.
const FIXED: u64 = 40 + 16 + 4;

/// The length in bytes of the tree's blob (Devicetree Specification v0.4, chapter 5), or 2^64 - 1
/// where the blob is longer. It takes no memory. Where many properties have names of their own, it
/// takes time by the square of their number.
pub fn blob_length(tree: &Tree) -> u64
    ensures { result ≡ length_in_64_bits (length (blob_text (devicetree_of tree.now))) }
{
    let structure = node_length(&tree.root);
    if structure == u64::MAX {
        return u64::MAX;
    }
    let mut place = 0;
    let strings = strings_length(&tree.root, &tree.root, &mut place);
    (tree.reserved.len() as u64)
        .saturating_mul(16)
        .saturating_add(FIXED)
        .saturating_add(structure)
        .saturating_add(strings)
}

// How many bytes the node takes in the structure block.
fn node_length(node: &Node) -> u64
    ensures { result ≡ length_in_64_bits (nodes_length (grow (branch_of node.now) empty)) }
{
    let own = 8 + whole_words(node.name.as_str().len() + 1);
    let mut sum = props_length(&node.props).saturating_add(own);
    for child in &node.nodes.inner {
        sum = sum.saturating_add(node_length(child));
    }
    sum
}

fn props_length(props: &PropList) -> u64
    ensures { result ≡ length_in_64_bits (props_length (map prop_pair props.now)) }
{
    let mut sum = 0u64;
    for prop in props.as_slice() {
        let own = 12 + whole_words(prop.value.as_slice().len());
        sum = sum.saturating_add(own);
    }
    sum
}

// The next multiple of 4.
fn whole_words(len: usize) -> u64
    requires { len ≤ 9223372036854775808 }
    ensures { result ≡ whole_words len }
{
    4 * ((len as u64 + 3) / 4)
}

// How many bytes the names under the node add to the strings block. They stand at `place` among
// those under the root, and `place` becomes the place after them.
fn strings_length(node: &Node, root: &Node, place: &mut u64) -> u64
    requires stands { StandAt place.old (node_names node.now) (node_names root.now) }
    requires fits { place.old + length (node_names node.now) < 2 ^ 64 }
    ensures sum { result
        ≡ length_in_64_bits (growth_at place.old (node_names root.now) (node_names node.now)) }
    ensures place { place.new ≡ place.old + length (node_names node.now) }
{
    let mut sum = own_length(root, &node.props, place);
    for child in &node.nodes.inner {
        sum = sum.saturating_add(strings_length(child, root, place));
    }
    sum
}

// The same for the names of some properties.
fn own_length(root: &Node, props: &PropList, place: &mut u64) -> u64
    requires stands { StandAt place.old (names_of_props props.now) (node_names root.now) }
    requires fits { place.old + length props.now < 2 ^ 64 }
    ensures sum { result
        ≡ length_in_64_bits (growth_at place.old (node_names root.now) (names_of_props props.now)) }
    ensures place { place.new ≡ place.old + length props.now }
{
    let mut sum = 0u64;
    for prop in props.as_slice() {
        sum = sum.saturating_add(name_length(root, prop.name.as_str(), *place));
        *place += 1;
    }
    sum
}

// How many bytes the name adds to the strings block at this place.
fn name_length(root: &Node, name: &str, place: u64) -> u64
    ensures { result ≡ name_growth (take place (node_names root.now)) name.now }
{
    let mut left = place;
    if is_before(root, name, &mut left) {
        return 0;
    }
    name.len() as u64 + 1
}

// Whether the name is among the first `left` names under the node. Where it isn't, `left` becomes
// how many are left of them after the node.
fn is_before(node: &Node, name: &str, left: &mut u64) -> bool
    ensures found { result ≡ has_name (take left.old (node_names node.now)) name.now }
    ensures left { result ≡ false → left.new ≡ left.old - length (node_names node.now) }
{
    if is_among(&node.props, name, left) {
        return true;
    }
    for child in &node.nodes.inner {
        if *left == 0 {
            return false;
        }
        if is_before(child, name, left) {
            return true;
        }
    }
    false
}

fn is_among(props: &PropList, name: &str, left: &mut u64) -> bool
    ensures found { result ≡ has_name (take left.old (names_of_props props.now)) name.now }
    ensures left { result ≡ false → left.new ≡ left.old - length props.now }
{
    for prop in props.as_slice() {
        if *left == 0 {
            return false;
        }
        if name == prop.name.as_str() {
            return true;
        }
        *left -= 1;
    }
    false
}
