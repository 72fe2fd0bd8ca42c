ghost use Rattle.std.specs.Prelude.{◌≡◌, IfErr, IfOk, Ok, Some, length};
ghost use Rattle.bb_actions.specs.Actions.{AreBoundTo, IsMisfit, Refuses, put_into, read_action};
ghost use Rattle.bb_actions.specs.Actions.{read_actions, var_named};
ghost use Rattle.bb_state.specs.Named.{var_of};
ghost use Rattle.bb_state.specs.Room.{VarHasRoom};
ghost use Rattle.bb_vars.specs.Kind.{HasFewNames, size_of};

use crate::{ActionError, BoundAction, BoundActionList};
use bb_base::{Bytes, NoMemory, Text};
use bb_layout::{Layout, Var};
use bb_state::StateError;
use bb_vars::read_value;
use bb_words::{Action, ActionList};
use std::alloc::Global;

/// Binds actions to the variables of a layout, and reads the text of each set as the bytes that it
/// stands for. The first action that doesn't fit is refused: no variable has its name, or its text
/// is no value of the variable.
pub fn read_actions(
    alloc: Global,
    layout: &Layout,
    actions: &ActionList,
) -> Result<BoundActionList, ActionError>
    ensures read { IfOk result (λ bound. read_actions layout.now.vars actions.now ≡ Ok bound) }
    ensures refused { IfErr result (Refuses (read_actions layout.now.vars actions.now)) }
    ensures bound { IfOk result (AreBoundTo layout.now.vars) }
{
    let mut bound = BoundActionList::none(alloc);
    for action in actions.as_slice() {
        bound.push(read_action(alloc, layout, action)?)?;
    }
    Ok(bound)
}

fn read_action(alloc: Global, layout: &Layout, action: &Action) -> Result<BoundAction, ActionError>
    ensures read { IfOk result (λ bound. read_action layout.now.vars action.now ≡ Ok bound) }
    ensures refused { IfErr result (Refuses (read_action layout.now.vars action.now)) }
{
    match action {
        Action::Set { name, value } => {
            let var = var_named(layout, name)?;
            read_put(alloc, var, name, value.as_str().as_bytes())
        }
        Action::Get(name) => {
            var_named(layout, name)?;
            Ok(BoundAction::Get(name.copy()?))
        }
        Action::Dump => Ok(BoundAction::Dump),
        Action::DumpShell => Ok(BoundAction::DumpShell),
    }
}

// The variable of that name.
#[tactic(auto, using(bb_state::proofs::NamedVars::var_of_some, bb_state::proofs::Rooms::room_at, crate::proofs::Refusals::name_refuses))]
fn var_named<'a>(layout: &'a Layout, name: &Text) -> Result<&'a Var, ActionError>
    ensures var { IfOk result (λ var. var_of layout.now.vars name.now ≡ Some var.now) }
    ensures room { IfOk result (λ var. VarHasRoom layout.now.area_len var.now) }
    ensures refused { IfErr result (Refuses (var_named layout.now.vars name.now)) }
{
    let Some(place) = layout.find(name.as_str()) else {
        return Err(misfit(name, StateError::NoSuchVariable));
    };
    let Some(var) = layout.vars.get(place) else {
        unreachable!()
    };
    Ok(var)
}

// The value of a variable that a text stands for, to be put at its place.
#[tactic(auto, using(crate::proofs::Refusals::misfit_refuses))]
fn read_put(alloc: Global, var: &Var, name: &Text, text: &[u8]) -> Result<BoundAction, ActionError>
    requires sized { var.now.size ≡ size_of var.now.kind }
    requires few_names { HasFewNames var.now.kind }
    ensures read { IfOk result (λ bound. put_into name.now text.now var.now ≡ Ok bound) }
    ensures refused { IfErr result (Refuses (put_into name.now text.now var.now)) }
{
    let mut value = zeros(alloc, var.size as usize)?;
    if let Err(cause) = read_value(&var.kind, text, &mut value) {
        return Err(misfit(name, StateError::Value(cause)));
    }
    let bytes = bytes_of(alloc, &value)?;
    Ok(BoundAction::Put { at: var.at, bytes })
}

fn zeros(alloc: Global, len: usize) -> Result<Vec<u8>, NoMemory>
    ensures { IfOk result (λ zeros. length zeros.items ≡ len) }
{
    Ok(vec![in alloc; 0u8; len]?)
}

fn bytes_of(alloc: Global, slice: &[u8]) -> Result<Bytes, NoMemory>
    ensures { IfOk result (λ bytes. bytes ≡ slice.now) }
{
    let mut bytes = Bytes::none(alloc);
    bytes.add(slice)?;
    Ok(bytes)
}

// The refusal that names a variable.
fn misfit(name: &Text, cause: StateError) -> ActionError
    ensures { IsMisfit name.now cause result }
{
    match name.copy() {
        Ok(name) => ActionError::Misfit(name, cause),
        Err(_) => ActionError::NoMemory,
    }
}
