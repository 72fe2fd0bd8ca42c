ghost use Rattle.std.specs.Prelude.{◌≡◌, ℕ, Ok, IfOk, IfErr, codes, unwrap_or};
ghost use Rattle.bb_chooser.specs.GivenSoFar.{given_in};
ghost use Rattle.bb_chooser.specs.Refusals.{ComesFrom, Refuses};
ghost use Rattle.bb_chooser.specs.Settings as spec;

use crate::SettingsError;
use crate::given::GivenSoFar;
use crate::read::{parts, read_parts};
use crate::rules::Rules;
use crate::target::Target;
use bb_base::{NoMemory, Text};
use std::alloc::Global;
use std::marker::Model;

/// What bootchooser's settings say: the targets in their order, the prefix of their variables, and
/// when what is reset. The targets' names differ.
#[derive(Drop)]
pub struct Settings {
    pub(crate) targets: Vec<Target>,
    pub(crate) prefix: Text,
    pub(crate) rules: Rules,
}

impl Model for Settings {
    ghost use Rattle.bb_chooser.specs.Settings.{Configuration, TargetsDiffer};

    ghost Value = { Configuration };

    ghost view = { λ s. record { targets = s.targets.items; prefix = s.prefix; rules = s.rules } };

    ghost invariant = { λ s. TargetsDiffer s.targets.items };
}

impl Settings {
    /// Reads settings: lines `global.bootchooser.KEY=VALUE`, of which the last for a key counts,
    /// lines of blanks, and comments after `#`. A line ends in LF or CR LF, and the last may end
    /// without (barebox User Manual, Bootchooser). The first line that is bad decides, with its
    /// number from 1; that there is no target is looked at last.
    pub fn read(alloc: Global, text: &[u8]) -> Result<Settings, SettingsError>
        ensures ok { IfOk result (λ settings. spec.settings_of text.now ≡ Ok settings) }
        ensures refused { IfErr result (Refuses (spec.settings_of text.now)) }

        // Each refusal, and where it comes.
        ensures bad_line { (line : ℕ)
            → ComesFrom result (spec.settings_of text.now) (SettingsError.BadLine line) }
        ensures target_twice { (line : ℕ)
            → ComesFrom result (spec.settings_of text.now) (SettingsError.TargetTwice line) }
        ensures bad_number { (line : ℕ)
            → ComesFrom result (spec.settings_of text.now) (SettingsError.BadNumber line) }
        ensures bad_event { (line : ℕ)
            → ComesFrom result (spec.settings_of text.now) (SettingsError.BadEvent line) }
        ensures no_targets { ComesFrom result (spec.settings_of text.now) SettingsError.NoTargets }
    {
        read_settings(alloc, text)
    }
}

fn read_settings(alloc: Global, text: &[u8]) -> Result<Settings, SettingsError>
    ensures ok { IfOk result (λ settings. spec.settings_of text.now ≡ Ok settings) }
    ensures refused { IfErr result (Refuses (spec.settings_of text.now)) }
{
    let parts = parts(alloc, text)?;
    let given = read_parts(alloc, parts.as_slice())?;
    configuration_of(alloc, given)
}

fn configuration_of(alloc: Global, given: GivenSoFar) -> Result<Settings, SettingsError>
    ensures ok { IfOk result (λ settings. spec.configuration_of (given_in given) ≡ Ok settings) }
    ensures refused { IfErr result (Refuses (spec.configuration_of (given_in given))) }
{
    let targets = given.targets(alloc)?;
    if targets.is_empty() {
        return Err(SettingsError::NoTargets);
    }
    let rules = given.rules();
    let prefix = prefix_or_default(alloc, given.prefix)?;
    Ok(Settings {
        targets,
        prefix,
        rules,
    })
}

fn prefix_or_default(alloc: Global, prefix: Option<Text>) -> Result<Text, NoMemory>
    ensures { IfOk result (λ text. text ≡ unwrap_or prefix (codes "state.bootstate")) }
{
    match prefix {
        Some(prefix) => Ok(prefix),
        None => Text::of(alloc, "state.bootstate"),
    }
}
