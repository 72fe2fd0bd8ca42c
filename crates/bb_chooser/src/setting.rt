ghost use Rattle.std.specs.Prelude.{◌≡◌, Ok, IfOk, IfErr};
ghost use Rattle.std.specs.Option.{option_map};
ghost use Rattle.bb_chooser.specs.Faults.{RefusesLine};
ghost use Rattle.bb_chooser.specs.Lines as spec;
ghost use Rattle.bb_chooser.specs.References.{text_pair};

use crate::events::Events;
use crate::fault::Fault;
use crate::key::{Key, TargetKey, is_target_name, key_of, target_key_of};
use crate::names::Names;
use crate::value::{all_zero, events, file, flag, names, number, prefix};
use bb_base::Text;
use std::alloc::Global;

/// What a line sets.
#[derive(Drop)]
pub(crate) enum Setting {
    Targets(Names),
    StatePrefix(Text),
    DefaultAttempts(u32),
    DefaultPriority(u32),
    ResetAttempts(Events),
    ResetPriorities(bool),
    Retry(bool),
    DisableOnZeroAttempts(bool),
    /// The file of this target.
    BootOf(Text, Text),
    /// The default attempts of this target.
    AttemptsOf(Text, u32),
    /// The default priority of this target.
    PriorityOf(Text, u32),
}

/// What a key and its value set.
pub(crate) fn read_setting(alloc: Global, key: &str, value: &str) -> Result<Setting, Fault>
    ensures ok { IfOk result (λ setting. spec.setting_of key.now value.now ≡ Ok setting) }
    ensures refused { IfErr result (RefusesLine (spec.setting_of key.now value.now)) }
{
    match key_of(key) {
        Some(key) => general_setting(alloc, key, value),
        None => target_setting(alloc, key, value),
    }
}

fn general_setting(alloc: Global, key: Key, value: &str) -> Result<Setting, Fault>
    ensures ok { IfOk result (λ setting. spec.general_setting_of key value.now ≡ Ok setting) }
    ensures refused { IfErr result (RefusesLine (spec.general_setting_of key value.now)) }
{
    match key {
        Key::Targets => Ok(Setting::Targets(names(alloc, value)?)),
        Key::StatePrefix => Ok(Setting::StatePrefix(prefix(alloc, value)?)),
        Key::DefaultAttempts => Ok(Setting::DefaultAttempts(number(value)?)),
        Key::DefaultPriority => Ok(Setting::DefaultPriority(number(value)?)),
        Key::ResetAttempts => Ok(Setting::ResetAttempts(events(alloc, value)?)),
        Key::ResetPriorities => Ok(Setting::ResetPriorities(all_zero(value)?)),
        Key::Retry => Ok(Setting::Retry(flag(value)?)),
        Key::DisableOnZeroAttempts => Ok(Setting::DisableOnZeroAttempts(flag(value)?)),
    }
}

fn target_setting(alloc: Global, key: &str, value: &str) -> Result<Setting, Fault>
    ensures ok { IfOk result (λ setting. spec.target_setting_of key.now value.now ≡ Ok setting) }
    ensures refused { IfErr result (RefusesLine (spec.target_setting_of key.now value.now)) }
{
    let Some((name, own)) = name_and_own(key) else {
        return Err(Fault::BadLine);
    };
    if !is_target_name(name) {
        return Err(Fault::BadLine);
    }
    match target_key_of(own) {
        Some(own) => own_setting(alloc, own, name, value),
        None => Err(Fault::BadLine),
    }
}

fn name_and_own(key: &str) -> Option<(&str, &str)>
    ensures { option_map text_pair result ≡ spec.sides_at 46 key.now }
{
    let (name, own) = key.split_once('.')?;
    Some((name, own))
}

fn own_setting(alloc: Global, key: TargetKey, name: &str, value: &str) -> Result<Setting, Fault>
    ensures ok { IfOk result (λ setting. spec.own_setting_of key name.now value.now ≡ Ok setting) }
    ensures refused { IfErr result (RefusesLine (spec.own_setting_of key name.now value.now)) }
{
    let name = Text::of(alloc, name)?;
    match key {
        TargetKey::Boot => Ok(Setting::BootOf(name, file(alloc, value)?)),
        TargetKey::DefaultAttempts => Ok(Setting::AttemptsOf(name, number(value)?)),
        TargetKey::DefaultPriority => Ok(Setting::PriorityOf(name, number(value)?)),
    }
}
