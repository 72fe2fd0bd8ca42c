use bb_tree::{Node, PairList, Prop, PropList, Tree};

/// Whether two trees are one: the same reserved pairs, and in the same order nodes of the same
/// names with properties of the same names and values.
pub fn is_same_tree(one: &Tree, other: &Tree) -> bool {
    are_same_pairs(&one.reserved, &other.reserved) && is_same_node(&one.root, &other.root)
}

fn are_same_pairs(one: &PairList, other: &PairList) -> bool {
    for place in 0..one.len() {
        if one.get(place) != other.get(place) {
            return false;
        }
    }
    one.len() == other.len()
}

fn is_same_node(one: &Node, other: &Node) -> bool {
    if one.name.as_str() != other.name.as_str() || !are_same_props(&one.props, &other.props) {
        return false;
    }
    let mut twins = other.nodes.inner.iter();
    for child in &one.nodes.inner {
        let Some(twin) = twins.next() else {
            return false;
        };
        if !is_same_node(child, twin) {
            return false;
        }
    }
    twins.next().is_none()
}

fn are_same_props(one: &PropList, other: &PropList) -> bool {
    for place in 0..one.len() {
        let (Some(prop), Some(twin)) = (one.get(place), other.get(place)) else {
            return false;
        };
        if !is_same_prop(prop, twin) {
            return false;
        }
    }
    one.len() == other.len()
}

fn is_same_prop(one: &Prop, other: &Prop) -> bool {
    one.name.as_str() == other.name.as_str() && one.value.as_slice() == other.value.as_slice()
}
