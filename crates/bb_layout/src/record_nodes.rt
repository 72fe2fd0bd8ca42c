ghost use Rattle.std.specs.Prelude.{◌≡◌, ◌≤◌, All, IfOk, List, ℕ, drop, length, take};
ghost use Rattle.std.specs.List.{common_prefix_len};
ghost use Rattle.std.specs.Str.{bytes_eq};
ghost use Rattle.bb_tree.specs.Node.{bare};
ghost use Rattle.bb_tree.specs.NodeViews.{branch_of, branches_of, prop_pair};
ghost use Rattle.bb_layout.specs.Ranges.{end_of};
ghost use Rattle.bb_layout.specs.Record as spec;
ghost use Rattle.bb_layout.specs.Variables.{IsWellFormed};

use crate::VarList;
use crate::record_value::value_prop;
use bb_base::{NoMemory, Text, TextList};
use bb_tree::{Node, NodeList, Prop, PropList};
use std::alloc::Global;

/// The nodes of variables in a record, for these bytes of the area.
#[tactic(auto, using(crate::proofs::Records::grown_more, crate::proofs::Records::formed_at, crate::proofs::Records::inside_at))]
pub(crate) fn nodes_of(alloc: Global, vars: &VarList, area: &[u8]) -> Result<NodeList, NoMemory>
    requires formed { All IsWellFormed vars.now }
    requires inside { All (λ v. end_of v ≤ length area.now) vars.now }
    ensures { IfOk result (λ nodes. branches_of nodes ≡ (spec.grown_of area.now vars.now).nodes) }
{
    let mut nodes = NodeList::none(alloc);
    for place in 0..vars.len() {
        let Some(var) = vars.get(place) else {
            unreachable!()
        };
        let shared = shared_before(vars, place, &var.path);
        let value = value_prop(alloc, var, area)?;
        nodes = put(alloc, nodes, &var.path, 0, shared, value)?;
    }
    Ok(nodes)
}

// How many names a path has in common with that of the variable before a place, from the first on.
#[tactic(auto, using(crate::proofs::Records::path_before))]
fn shared_before(vars: &VarList, place: usize, path: &TextList) -> usize
    requires { place ≤ length vars.now }
    ensures { (area : List ℕ) → result
        ≡ common_prefix_len bytes_eq (spec.grown_of area (take place vars.now)).path path.now }
{
    if place == 0 {
        return 0;
    }
    let Some(before) = vars.get(place - 1) else {
        unreachable!()
    };
    shared_len(&before.path, path)
}

#[tactic(auto, using(crate::proofs::Records::prefix_ends, crate::proofs::Records::prefix_goes_on, crate::proofs::Records::prefix_whole))]
/// How many names two paths have in common, from the first on.
pub fn shared_len(path: &TextList, other: &TextList) -> usize
    ensures { result ≡ common_prefix_len bytes_eq path.now other.now }
{
    for depth in 0..path.len().min(other.len()) {
        let (Some(name), Some(same)) = (path.get(depth), other.get(depth)) else {
            unreachable!()
        };
        if name.as_str() != same.as_str() {
            return depth;
        }
    }
    path.len().min(other.len())
}

// The nodes with a property put where a path leads from one of its names on, after all that is
// there: through the last nodes for so many names, and then through new ones.
fn put(
    alloc: Global,
    mut nodes: NodeList,
    path: &TextList,
    depth: usize,
    shared: usize,
    prop: Prop,
) -> Result<NodeList, NoMemory>
    ensures { IfOk result (λ after. branches_of after
        ≡ spec.nodes_with_prop shared (drop depth path.now) (prop_pair prop) (branches_of nodes)) }
{
    if depth >= path.len() {
        return Ok(nodes);
    }
    let Some(name) = path.get(depth) else {
        unreachable!()
    };
    if shared == 0 {
        nodes.push(node_for(alloc, name, path, depth + 1, prop)?)?;
        return Ok(nodes);
    }
    let Some(last) = nodes.inner.pop() else {
        return Ok(nodes);
    };
    if depth + 1 == path.len() {
        nodes.push(with_prop(last, prop)?)?;
        return Ok(nodes);
    }
    let inner = put(alloc, last.nodes, path, depth + 1, shared - 1, prop)?;
    nodes.push(Node {
        name: last.name,
        props: last.props,
        nodes: inner,
    })?;
    Ok(nodes)
}

#[tactic(auto, using(crate::proofs::Records::node_last, crate::proofs::Records::node_more))]
// A node of that name in which a path leads from one of its names on, to the property.
fn node_for(
    alloc: Global,
    name: &Text,
    path: &TextList,
    depth: usize,
    prop: Prop,
) -> Result<Node, NoMemory>
    requires { depth ≤ length path.now }
    ensures { IfOk result (λ node. branch_of node
        ≡ spec.node_for name.now (drop depth path.now) (prop_pair prop)) }
{
    if depth >= path.len() {
        return with_prop(bare(alloc, name)?, prop);
    }
    let Some(next) = path.get(depth) else {
        unreachable!()
    };
    let mut nodes = NodeList::none(alloc);
    nodes.push(node_for(alloc, next, path, depth + 1, prop)?)?;
    Ok(Node {
        name: name.copy()?,
        props: PropList::none(alloc),
        nodes,
    })
}

fn bare(alloc: Global, name: &Text) -> Result<Node, NoMemory>
    ensures { IfOk result (λ node. branch_of node ≡ bare name.now) }
{
    Ok(Node {
        name: name.copy()?,
        props: PropList::none(alloc),
        nodes: NodeList::none(alloc),
    })
}

fn with_prop(node: Node, prop: Prop) -> Result<Node, NoMemory>
    ensures { IfOk result (λ after. branch_of after
        ≡ spec.put_prop (prop_pair prop) (branch_of node)) }
{
    let mut props = node.props;
    props.push(prop)?;
    Ok(Node {
        name: node.name,
        props,
        nodes: node.nodes,
    })
}
