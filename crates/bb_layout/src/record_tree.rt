ghost use Rattle.std.specs.Prelude.{◌≡◌, ◌≤◌, [], All, IfOk, length};
ghost use Rattle.bb_tree.specs.NodeViews.{branch_of};
ghost use Rattle.bb_layout.specs.Ranges.{end_of};
ghost use Rattle.bb_layout.specs.Record as spec;
ghost use Rattle.bb_layout.specs.Variables.{IsWellFormed};

use crate::VarList;
use crate::record_nodes::nodes_of;
use crate::record_value::prop;
use bb_base::{NoMemory, Text};
use bb_tree::{Node, NodeList, PairList, PropList, Tree};
use std::alloc::Global;

/// The tree of a record that is a blob, by the state node's full name, its magic and the variables,
/// for these bytes of the area, with zero bytes for its CRC.
pub(crate) fn record_tree(
    alloc: Global,
    node: &Text,
    magic: u32,
    vars: &VarList,
    area: &[u8],
) -> Result<Tree, NoMemory>
    requires formed { All IsWellFormed vars.now }
    requires inside { All (λ v. end_of v ≤ length area.now) vars.now }
    ensures root { IfOk result (λ tree. branch_of tree.root ≡ spec.record_tree_of
        (record { node = node.now; magic = magic; vars = vars.now }) area.now) }
    ensures reserved { IfOk result (λ tree. tree.reserved ≡ []) }
{
    let mut props = PropList::none(alloc);
    props.push(prop(alloc, "bb,crc32", &[0; 4])?)?;
    let mut nodes = NodeList::none(alloc);
    nodes.push(state_node(alloc, node, magic, vars, area)?)?;
    Ok(Tree {
        root: Node {
            name: Text::of(alloc, "")?,
            props,
            nodes,
        },
        reserved: PairList::none(alloc),
    })
}

fn state_node(
    alloc: Global,
    node: &Text,
    magic: u32,
    vars: &VarList,
    area: &[u8],
) -> Result<Node, NoMemory>
    requires formed { All IsWellFormed vars.now }
    requires inside { All (λ v. end_of v ≤ length area.now) vars.now }
    ensures { IfOk result (λ state. branch_of state ≡ spec.state_record_tree
        (record { node = node.now; magic = magic; vars = vars.now }) area.now) }
{
    let mut props = PropList::none(alloc);
    props.push(prop(alloc, "compatible", b"barebox,state\0")?)?;
    props.push(prop(alloc, "magic", &magic.to_be_bytes())?)?;
    Ok(Node {
        name: node.copy()?,
        props,
        nodes: nodes_of(alloc, vars, area)?,
    })
}
