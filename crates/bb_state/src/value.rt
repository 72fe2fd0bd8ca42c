ghost use Rattle.std.specs.Prelude.{◌≡◌, ◌<◌, ◌++◌, OnErr, OnOk, IfOk, IfErr};
ghost use Rattle.std.specs.Prelude.{Some, None, length};
ghost use Rattle.std.specs.Prelude.{slice_get};
ghost use Rattle.bb_state.specs.Lines.{printed_value};
ghost use Rattle.bb_state.specs.Named.{var_of};
ghost use Rattle.bb_state.specs.Room.{VarHasRoom};
ghost use Rattle.bb_state.specs.declared.error.StateError.TheVariants as states;

use crate::StateError;
use bb_base::{Bytes, NoMemory};
use bb_layout::{Layout, Var};
use bb_vars::print_value;

/// The variable at a place.
pub(crate) fn var_at(layout: &Layout, place: usize) -> &Var
    requires { place < length layout.now.vars }
    ensures var { slice_get layout.now.vars place ≡ Some result.now }
    ensures room { VarHasRoom layout.now.area_len result.now }
{
    let Some(var) = layout.vars.get(place) else {
        unreachable!()
    };
    var
}

/// The variable of that name.
#[tactic(auto, using(crate::proofs::NamedVars::var_of_none, crate::proofs::NamedVars::var_of_some))]
pub(crate) fn var_of<'a>(layout: &'a Layout, name: &str) -> Result<&'a Var, StateError>
    ensures var { IfOk result (λ v. var_of layout.now.vars name.now ≡ Some v.now) }
    ensures room { IfOk result (λ v. VarHasRoom layout.now.area_len v.now) }
    ensures none { IfErr result (λ e. e ≡ states.NoSuchVariable) }
    ensures unknown { IfErr result (λ _. var_of layout.now.vars name.now ≡ None) }
{
    match layout.find(name) {
        Some(place) => Ok(var_at(layout, place)),
        None => Err(StateError::NoSuchVariable),
    }
}

/// Appends the text of a variable's value in an area. Without memory `out` is as before.
pub(crate) fn add_value(area: &[u8], var: &Var, out: &mut Bytes) -> Result<(), NoMemory>
    requires { VarHasRoom (length area.now) var.now }
    ensures printed { OnOk result (out.new ≡ out.old ++ printed_value area.now var.now) }
    ensures unchanged { OnErr result (out.new ≡ out.old) }
{
    let at = var.at as usize;
    print_value(&var.kind, &area[at..at + var.size as usize], out)
}
