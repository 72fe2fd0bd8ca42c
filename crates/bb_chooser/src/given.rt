ghost use Rattle.std.specs.Prelude.{◌≡◌, [], IfOk, OnOk};
ghost use Rattle.std.specs.String.{string_bytes};
ghost use Rattle.bb_chooser.specs.Settings as spec;
ghost use Rattle.bb_chooser.specs.GivenSoFar.{given_in, given_with, target_called};

use crate::events::Events;
use crate::names::Names;
use crate::rules::Rules;
use crate::setting::Setting;
use crate::target::Target;
use bb_base::{NoMemory, Text};
use indexmap::IndexMap;
use std::alloc::Global;

/// What lines have set so far.
#[derive(Drop)]
pub(crate) struct GivenSoFar {
    pub targets: Option<Names>,
    pub prefix: Option<Text>,
    pub attempts: Option<u32>,
    pub priority: Option<u32>,
    pub reset_attempts: Option<Events>,
    pub reset_priorities: Option<bool>,
    pub retry: Option<bool>,
    pub disable: Option<bool>,
    // by the target's name
    pub boots: IndexMap<String, Text>,
    pub attempts_of: IndexMap<String, u32>,
    pub priority_of: IndexMap<String, u32>,
}

impl GivenSoFar {
    /// Nothing.
    pub(crate) fn none(alloc: Global) -> GivenSoFar
        ensures { given_in result ≡ spec.given_by [] }
    {
        GivenSoFar {
            targets: None,
            prefix: None,
            attempts: None,
            priority: None,
            reset_attempts: None,
            reset_priorities: None,
            retry: None,
            disable: None,
            boots: IndexMap::new(alloc),
            attempts_of: IndexMap::new(alloc),
            priority_of: IndexMap::new(alloc),
        }
    }

    /// Takes what the next line sets.
    pub(crate) fn take(&mut self, alloc: Global, setting: Setting) -> Result<(), NoMemory>
        ensures { OnOk result (given_in self.new ≡ given_with setting (given_in self.old)) }
    {
        match setting {
            Setting::Targets(names) => self.targets = Some(names),
            Setting::StatePrefix(prefix) => self.prefix = Some(prefix),
            Setting::DefaultAttempts(n) => self.attempts = Some(n),
            Setting::DefaultPriority(n) => self.priority = Some(n),
            Setting::ResetAttempts(events) => self.reset_attempts = Some(events),
            Setting::ResetPriorities(resets) => self.reset_priorities = Some(resets),
            Setting::Retry(retry) => self.retry = Some(retry),
            Setting::DisableOnZeroAttempts(disable) => self.disable = Some(disable),
            Setting::BootOf(name, file) => {
                let _ = self.boots.insert(key(alloc, &name)?, file)?;
            }
            Setting::AttemptsOf(name, n) => {
                let _ = self.attempts_of.insert(key(alloc, &name)?, n)?;
            }
            Setting::PriorityOf(name, n) => {
                let _ = self.priority_of.insert(key(alloc, &name)?, n)?;
            }
        }
        Ok(())
    }

    /// The targets of the last line that names them.
    pub(crate) fn targets(&self, alloc: Global) -> Result<Vec<Target>, NoMemory>
        ensures ok { IfOk result (λ targets.
            targets.items ≡ spec.targets_given (given_in self.now)) }
        ensures differ { IfOk result (λ targets. spec.TargetsDiffer targets.items) }
    {
        let mut targets = Vec::new(alloc);
        let Some(names) = &self.targets else {
            return Ok(targets);
        };
        for place in 0..names.len() {
            let Some(name) = names.get(place) else {
                unreachable!()
            };
            targets.push(self.target(alloc, name)?)?;
        }
        Ok(targets)
    }

    fn target(&self, alloc: Global, name: &str) -> Result<Target, NoMemory>
        ensures { IfOk result (λ target. target ≡ target_called self.now name.now) }
    {
        Ok(Target {
            name: Text::of(alloc, name)?,
            entry: self.entry(alloc, name)?,
            default_attempts: self.default_attempts(name),
            default_priority: self.default_priority(name),
        })
    }

    fn entry(&self, alloc: Global, name: &str) -> Result<Text, NoMemory>
        ensures { IfOk result (λ entry. entry ≡ (target_called self.now name.now).entry) }
    {
        match self.boots.get(name) {
            Some(file) => file.copy(),
            None => default_entry(alloc, name),
        }
    }

    fn default_attempts(&self, name: &str) -> u32
        ensures { result ≡ (target_called self.now name.now).default_attempts }
    {
        match self.attempts_of.get(name) {
            Some(n) => *n,
            None => self.attempts.unwrap_or(3),
        }
    }

    fn default_priority(&self, name: &str) -> u32
        ensures { result ≡ (target_called self.now name.now).default_priority }
    {
        match self.priority_of.get(name) {
            Some(n) => *n,
            None => self.priority.unwrap_or(1),
        }
    }

    /// What counts for all targets.
    pub(crate) fn rules(&self) -> Rules
        ensures { result ≡ spec.rules_of (given_in self.now) }
    {
        Rules {
            reset_attempts: self.reset_attempts.unwrap_or(Events {
                power_on: false,
                reset: false,
                all_zero: false,
            }),
            reset_priorities: self.reset_priorities.unwrap_or(false),
            retry: self.retry.unwrap_or(false),
            disable_on_zero_attempts: self.disable.unwrap_or(false),
        }
    }
}

fn key(alloc: Global, name: &Text) -> Result<String, NoMemory>
    ensures { IfOk result (λ key. string_bytes key ≡ name.now) }
{
    Ok(String::from_str(alloc, name.as_str())?)
}

fn default_entry(alloc: Global, name: &str) -> Result<Text, NoMemory>
    ensures { IfOk result (λ entry. entry ≡ spec.default_entry name.now) }
{
    let entry = format!(in alloc; "loader/entries/{name}.conf")?;
    Text::of(alloc, entry.as_str())
}
