ghost use Rattle.std.specs.Prelude.{◌≡◌, ◌++◌, ◌∷◌, [], Ok, IfOk, IfErr, OnOk};
ghost use Rattle.std.specs.Option.{option_copied, option_map};
ghost use Rattle.bb_chooser.specs.Binding as binding;
ghost use Rattle.bb_chooser.specs.InLayout.{all_bound_in, bound_in, last_chosen_place};
ghost use Rattle.bb_chooser.specs.InLayout.{uint32_place, variable_in};
ghost use Rattle.bb_chooser.specs.Lines.{sides_at};
ghost use Rattle.bb_chooser.specs.Refusals.{Refuses};
ghost use Rattle.bb_chooser.specs.References.{text_pair};

use crate::SettingsError;
use crate::bound_target::BoundTarget;
use crate::target::Target;
use bb_base::{NoMemory, Text};
use bb_layout::{Layout, Var};
use bb_vars::Kind;
use std::alloc::Global;

/// Each target with the places of its variables; or the first that the layout doesn't have so.
pub(crate) fn bound_targets(
    alloc: Global,
    layout: &Layout,
    prefix: &str,
    targets: Vec<Target>,
) -> Result<Vec<BoundTarget>, SettingsError>
    ensures ok { IfOk result (λ bound.
        all_bound_in layout.now prefix.now targets.items ≡ Ok bound.items) }
    ensures refused { IfErr result (Refuses (all_bound_in layout.now prefix.now targets.items)) }
{
    let mut bound = Vec::new(alloc);
    for target in targets {
        add_bound(&mut bound, bound_target(alloc, layout, prefix, target)?)?;
    }
    Ok(bound)
}

fn add_bound(bound: &mut Vec<BoundTarget>, next: BoundTarget) -> Result<(), NoMemory>
    ensures { OnOk result (bound.new.items ≡ bound.old.items ++ next ∷ []) }
{
    bound.push(next)?;
    Ok(())
}

fn bound_target(
    alloc: Global,
    layout: &Layout,
    prefix: &str,
    target: Target,
) -> Result<BoundTarget, SettingsError>
    ensures ok { IfOk result (λ bound. bound_in layout.now prefix.now target ≡ Ok bound) }
    ensures refused { IfErr result (Refuses (bound_in layout.now prefix.now target)) }
{
    let attempts = attempts_name(alloc, prefix, &target.name)?;
    let attempts_at = uint32_at(alloc, layout, attempts.as_str())?;
    let priority = priority_name(alloc, prefix, &target.name)?;
    let priority_at = uint32_at(alloc, layout, priority.as_str())?;
    Ok(BoundTarget {
        target,
        attempts_at,
        priority_at,
    })
}

fn attempts_name(alloc: Global, prefix: &str, target: &Text) -> Result<Text, NoMemory>
    ensures { IfOk result (λ name. name ≡ binding.attempts_name prefix.now target.now) }
{
    let target = target.as_str();
    let name = format!(in alloc; "{prefix}.{target}.remaining_attempts")?;
    Text::of(alloc, name.as_str())
}

fn priority_name(alloc: Global, prefix: &str, target: &Text) -> Result<Text, NoMemory>
    ensures { IfOk result (λ name. name ≡ binding.priority_name prefix.now target.now) }
{
    let target = target.as_str();
    let name = format!(in alloc; "{prefix}.{target}.priority")?;
    Text::of(alloc, name.as_str())
}

/// The place of the variable that keeps which target was chosen last.
pub(crate) fn last_chosen_at(
    alloc: Global,
    layout: &Layout,
    prefix: &str,
) -> Result<u32, SettingsError>
    ensures ok { IfOk result (λ at. last_chosen_place layout.now prefix.now ≡ Ok at) }
    ensures refused { IfErr result (Refuses (last_chosen_place layout.now prefix.now)) }
{
    let name = last_chosen_name(alloc, prefix)?;
    uint32_at(alloc, layout, name.as_str())
}

fn last_chosen_name(alloc: Global, prefix: &str) -> Result<Text, NoMemory>
    ensures { IfOk result (λ name. name ≡ binding.last_chosen_name prefix.now) }
{
    let name = format!(in alloc; "{prefix}.last_chosen")?;
    Text::of(alloc, name.as_str())
}

// The place of the uint32 of this name, which begins with the layout's.
fn uint32_at(alloc: Global, layout: &Layout, full: &str) -> Result<u32, SettingsError>
    ensures ok { IfOk result (λ at. uint32_place layout.now full.now ≡ Ok at) }
    ensures refused { IfErr result (Refuses (uint32_place layout.now full.now)) }
{
    let Some(var) = variable_called(layout, full) else {
        return Err(SettingsError::no_such_variable(alloc, full));
    };
    match var.kind {
        Kind::Uint32 => Ok(var.at),
        _ => Err(SettingsError::not_uint32(alloc, full)),
    }
}

fn variable_called<'a>(layout: &'a Layout, full: &str) -> Option<&'a Var>
    ensures { option_copied result ≡ variable_in layout.now full.now }
{
    let (name, rest) = layout_and_variable(full)?;
    if name != layout.name.as_str() {
        return None;
    }
    layout.vars.get(layout.find(rest)?)
}

fn layout_and_variable(full: &str) -> Option<(&str, &str)>
    ensures { option_map text_pair result ≡ sides_at 46 full.now }
{
    let (name, rest) = full.split_once('.')?;
    Some((name, rest))
}
