ghost use Rattle.std.specs.Prelude.{◌≡◌, ◌++◌, OnOk, map};
ghost use Rattle.std.specs.List.{flat_map};
ghost use Rattle.bb_tree.specs.Blob.{offset_of, begin_text, prop_text, nodes_text};
ghost use Rattle.bb_tree.specs.Node.{grow, empty};
ghost use Rattle.bb_tree.specs.NodeViews.{branch_of, prop_pair};

use crate::names::Names;
use crate::text::{add_filling, add_word};
use bb_base::NoMemory;
use bb_tree::{Node, Prop, PropList};

/// Appends the node from its FDT_BEGIN_NODE to its FDT_END_NODE.
pub(crate) fn add_node(bytes: &mut Vec<u8>, names: &Names, node: &Node) -> Result<(), NoMemory>
    ensures { OnOk result (bytes.new.items
        ≡ bytes.old.items ++ nodes_text (offset_of names.now) (grow (branch_of node.now) empty)) }
{
    add_begin(bytes, node.name.as_str())?;
    add_props(bytes, names, &node.props)?;
    for child in &node.nodes.inner {
        add_node(bytes, names, child)?;
    }
    add_word(bytes, 2)
}

fn add_begin(bytes: &mut Vec<u8>, name: &str) -> Result<(), NoMemory>
    ensures { OnOk result (bytes.new.items ≡ bytes.old.items ++ begin_text name.now) }
{
    add_word(bytes, 1)?;
    bytes.extend_from_slice(name.as_bytes())?;
    bytes.push(0)?;
    add_filling(bytes, name.len() + 1)
}

fn add_props(bytes: &mut Vec<u8>, names: &Names, props: &PropList) -> Result<(), NoMemory>
    ensures { OnOk result (bytes.new.items
        ≡ bytes.old.items ++ flat_map (prop_text (offset_of names.now)) (map prop_pair props.now)) }
{
    for prop in props.as_slice() {
        add_prop(bytes, names, prop)?;
    }
    Ok(())
}

fn add_prop(bytes: &mut Vec<u8>, names: &Names, prop: &Prop) -> Result<(), NoMemory>
    ensures { OnOk result (bytes.new.items
        ≡ bytes.old.items ++ prop_text (offset_of names.now) (prop_pair prop.now)) }
{
    let value = prop.value.as_slice();
    add_word(bytes, 3)?;
    add_word(bytes, value.len())?;
    add_word(bytes, names.offset_of(prop.name.as_str()))?;
    bytes.extend_from_slice(value)?;
    add_filling(bytes, value.len())
}
