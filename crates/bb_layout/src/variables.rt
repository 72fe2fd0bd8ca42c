ghost use Rattle.std.specs.Prelude.{◌≡◌, ◌++◌, ◌∷◌, [], All, IfOk, IfErr, OnOk};
ghost use Rattle.bb_tree.specs.NodeViews.{branch_of};
ghost use Rattle.bb_layout.specs.Variables.{IsWellFormed, variables_of};
ghost use Rattle.bb_layout.specs.Walk.{onto, variables_below};
ghost use Rattle.bb_layout.specs.Refusals.{Refuses};

use crate::variable::variable;
use crate::{LayoutError, VarList};
use bb_base::{NoMemory, Text, TextList};
use bb_tree::Node;
use std::alloc::Global;

/// The variables below a state node, in preorder; or the first refusal of one of them.
pub(crate) fn variables(alloc: Global, state: &Node) -> Result<VarList, LayoutError>
    ensures ok { IfOk result (λ vars. variables_of (branch_of state.now) ≡ Ok vars) }
    ensures refused { IfErr result (Refuses (variables_of (branch_of state.now))) }
    ensures well_formed { IfOk result (λ vars. All IsWellFormed vars) }
{
    let mut vars = VarList::none(alloc);
    add_variables(alloc, &TextList::none(alloc), state, &mut vars)?;
    Ok(vars)
}

// Adds the variables below a node, to which the full names of `above` lead.
fn add_variables(
    alloc: Global,
    above: &TextList,
    node: &Node,
    vars: &mut VarList,
) -> Result<(), LayoutError>
    ensures ok { OnOk result
        (onto vars.old (variables_below above.now (branch_of node.now)) ≡ Ok vars.new) }
    ensures refused { IfErr result (Refuses (variables_below above.now (branch_of node.now))) }
{
    for child in &node.nodes.inner {
        let path = path_to(alloc, above, child.name.as_str())?;
        if child.prop("type").is_some() {
            vars.push(variable(alloc, path, child)?)?;
            continue;
        }
        add_variables(alloc, &path, child, vars)?;
    }
    Ok(())
}

// The names, and one more last.
fn path_to(alloc: Global, above: &TextList, name: &str) -> Result<TextList, NoMemory>
    ensures { IfOk result (λ path. path ≡ above.now ++ name.now ∷ []) }
{
    let mut path = TextList::none(alloc);
    for text in above.as_slice() {
        path.push(text.copy()?)?;
    }
    path.push(Text::of(alloc, name)?)?;
    Ok(path)
}
