ghost use Rattle.std.specs.Prelude.{◌<◌, OnOk, vec_len};
ghost use Rattle.bb_tree.specs.Merge.{merging};
ghost use Rattle.bb_tree.specs.DraftViews.{draft_of, drafts_of, prop_pairs};
ghost use Rattle.bb_tree.specs.Slots.{IsSound, Changes, with_props, with_nodes};

use crate::place::{child_or_new, put_prop};
use crate::slot::Slot;
use crate::{DraftNode, DraftNodeList, DraftPropList};
use bb_base::NoMemory;
use std::alloc::Global;

/// Merges the properties and nodes of `node` into the node at `k`.
pub(crate) fn merge_into(
    alloc: Global,
    slots: &mut Vec<Slot>,
    k: usize,
    node: DraftNode,
) -> Result<(), NoMemory>
    requires within { k < vec_len slots.old }
    requires sound { IsSound slots.old.items }
    ensures { OnOk result (Changes k (merging (draft_of node)) slots.old.items slots.new.items) }
{
    let DraftNode {
        name: _name,
        props,
        nodes,
    } = node;
    put_props(alloc, slots, k, props)?;
    merge_nodes(alloc, slots, k, nodes)
}

fn merge_nodes(
    alloc: Global,
    slots: &mut Vec<Slot>,
    k: usize,
    nodes: DraftNodeList,
) -> Result<(), NoMemory>
    requires within { k < vec_len slots.old }
    requires sound { IsSound slots.old.items }
    ensures { OnOk result
        (Changes k (with_nodes (drafts_of nodes)) slots.old.items slots.new.items) }
{
    for child in nodes.inner {
        let DraftNode { name, props, nodes } = child;
        let c = child_or_new(alloc, slots, k, name)?;
        put_props(alloc, slots, c, props)?;
        merge_nodes(alloc, slots, c, nodes)?;
    }
    Ok(())
}

fn put_props(
    alloc: Global,
    slots: &mut Vec<Slot>,
    k: usize,
    props: DraftPropList,
) -> Result<(), NoMemory>
    requires within { k < vec_len slots.old }
    requires sound { IsSound slots.old.items }
    ensures { OnOk result
        (Changes k (with_props (prop_pairs props)) slots.old.items slots.new.items) }
{
    for prop in props.into_inner() {
        put_prop(alloc, slots, k, prop)?;
    }
    Ok(())
}
