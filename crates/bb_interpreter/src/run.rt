ghost use Rattle.std.specs.Prelude.{◌≡◌, true};
ghost use Rattle.bb_script.specs.Views.{script_tree};
ghost use Rattle.bb_interpreter.specs.Runs.{HasRunNothing, RanScript, ends_done};

use crate::commands::Commands;
use crate::steps::run_steps;
use crate::stop::ScriptStop;
use crate::variables::{ScriptVariable, own_value};
use bb_base::{Bytes, NoMemory};
use bb_script::{Script, ScriptVariables};
use std::alloc::Global;

/// How a script ends.
#[derive(Clone, Copy, Debug, PartialEq, Eq)]
pub enum ScriptEnd {
    /// At its end, with the status of the last command.
    Done(u32),
    /// A command started a target.
    Started,
    /// It has more than 10,000 commands and rounds.
    StepLimit,
    /// The device failed.
    Fault,
    /// An allocation was refused. What was done so far stands.
    NoMemory,
}

/// What a script works on, and what it has done.
#[derive(Drop)]
pub struct ScriptRun<C> {
    pub alloc: Global,
    /// The commands and variables from outside.
    pub commands: C,
    pub variables: Vec<ScriptVariable>,
    /// What was sent so far.
    pub text: Bytes,
    /// The status of the last command.
    pub status: u32,
    /// How many commands and rounds there were.
    pub count: u32,
}

impl<C: Commands> ScriptVariables for ScriptRun<C> {
    ghost use Rattle.std.specs.Prelude.{map};
    ghost use Rattle.bb_interpreter.specs.Outside.{known_value};
    ghost use Rattle.bb_interpreter.specs.Variables.{variable_pair};

    ghost value_of = { λ run name. known_value C.outside run.commands
        (map variable_pair run.variables.items) name };

    fn value(&self, alloc: Global, name: &[u8]) -> Result<Bytes, NoMemory> {
        if let Some(value) = self.commands.value(alloc, name)? {
            return Ok(value);
        }
        let mut value = Bytes::none(alloc);
        value.add(own_value(self.variables.as_slice(), name))?;
        Ok(value)
    }
}

impl<C: Commands + Drop> ScriptRun<C> {
    /// Before any command.
    pub fn new(alloc: Global, commands: C) -> ScriptRun<C>
        ensures fresh { HasRunNothing result }
        ensures commands { result.commands ≡ commands }
    {
        ScriptRun {
            alloc,
            commands,
            variables: Vec::new(alloc),
            text: Bytes::none(alloc),
            status: 0,
            count: 0,
        }
    }

    /// Runs a script, of which docs/FORMATS.md says what it does.
    pub fn run(&mut self, script: &Script, device: &mut C::Device) -> ScriptEnd
        requires { C.can_call self.old.commands device.old }
        ensures run { RanScript C.call_gives C.outside (script_tree script.now) self.old self.new
            device.old device.new result }
        ensures ready { ends_done result ≡ true → C.can_call self.new.commands device.new }
    {
        match run_steps(script, self, device) {
            Ok(()) => ScriptEnd::Done(self.status),
            Err(ScriptStop::Started) => ScriptEnd::Started,
            Err(ScriptStop::StepLimit) => ScriptEnd::StepLimit,
            Err(ScriptStop::Fault) => ScriptEnd::Fault,
            Err(ScriptStop::NoMemory) => ScriptEnd::NoMemory,
        }
    }
}
