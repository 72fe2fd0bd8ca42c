ghost use Rattle.std.specs.Prelude.{◌≡◌};
ghost use Rattle.std.specs.Option.{option_copied, option_map};
ghost use Rattle.bb_tree.specs.NodeViews.{branch_of};
ghost use Rattle.bb_layout.specs.Backend as spec;
ghost use Rattle.bb_layout.specs.Steps.{StepGives};

use crate::LayoutError;
use crate::fields::{cell, four_cells, string, two_cells};
use crate::state_props::required_prop;
use bb_flash::Region;
use bb_tree::{Node, Tree};
use std::alloc::Global;
use std::str;

/// The partition that the state node's `backend` leads to, by a phandle or along a path.
pub(crate) fn backend(alloc: Global, tree: &Tree, state: &Node) -> Result<Region, LayoutError>
    ensures { StepGives (spec.backend_of (branch_of tree.now.root) (branch_of state.now)) result }
{
    let value = required_prop(alloc, state, "backend")?;
    if let Some(phandle) = cell(value) {
        return partition_at(tree.by_phandle(phandle));
    }
    let Some(path) = path(value) else {
        return Err(LayoutError::bad_prop(alloc, "backend"));
    };
    partition_at(node_along(tree, path))
}

// A string that begins with `/`.
fn path(value: &[u8]) -> Option<&[u8]>
    ensures { option_copied result ≡ spec.path_in value.now }
{
    let path = string(value)?;
    path.starts_with(b"/").then_some(path)
}

#[tactic(auto, using(crate::proofs::Texts::passes_as_text, crate::proofs::Texts::fails_as_text))]
fn node_along<'a>(tree: &'a Tree, path: &[u8]) -> Option<&'a Node>
    ensures { option_map branch_of (option_copied result)
        ≡ spec.node_along (branch_of tree.now.root) path.now }
{
    match str::from_utf8(path) {
        Ok(path) => tree.find(path),
        Err(_) => None,
    }
}

fn partition_at(node: Option<&Node>) -> Result<Region, LayoutError>
    ensures { result ≡ spec.partition_at (option_map branch_of (option_copied node.entry)) }
{
    let partition = partition(node.ok_or(LayoutError::NoBackend)?);
    partition.ok_or(LayoutError::NoBackend)
}

// The region that `reg` gives.
fn partition(node: &Node) -> Option<Region>
    ensures { result ≡ spec.partition_of (branch_of node.now) }
{
    region(node.prop("reg")?)
}

// An offset and a size, of one cell each, or of two cells of which the first is 0.
fn region(value: &[u8]) -> Option<Region>
    ensures { result ≡ spec.region_in value.now }
{
    if let Some((at, size)) = two_cells(value) {
        return Some(Region { at, size });
    }
    match four_cells(value)? {
        ((0, at), (0, size)) => Some(Region { at, size }),
        _ => None,
    }
}
