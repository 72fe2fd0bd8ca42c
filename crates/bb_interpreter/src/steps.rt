ghost use Rattle.std.specs.Prelude.{◌≡◌, OnOk};
ghost use Rattle.bb_script.specs.Views.{command_tree, if_tree, loop_tree, script_tree, step_pair};
ghost use Rattle.bb_interpreter.specs.Means.{is_due, means_choice, means_command, means_steps};
ghost use Rattle.bb_interpreter.specs.Means.{next_answer};
ghost use Rattle.bb_interpreter.specs.Means.{rounds, when_due};
ghost use Rattle.bb_interpreter.specs.Runs.{Leads, ending, LeftBy};

use crate::commands::Commands;
use crate::run::ScriptRun;
use crate::simple::{count, expanded, put, run_call, run_set};
use crate::stop::ScriptStop;
use bb_base::Bytes;
use bb_script::{Choice, ForLoop, Otherwise, Script, ScriptCommand, ScriptStep, When};

/// Runs a script.
#[cycle(run)]
pub(crate) fn run_steps<C: Commands>(
    script: &Script,
    run: &mut ScriptRun<C>,
    device: &mut C::Device,
) -> Result<(), ScriptStop>
    requires { C.can_call run.old.commands device.old }
    ensures leads { Leads C.call_gives (LeftBy result)
        (means_steps C.outside next_answer (script_tree script.now)) (ending result)
        run.old run.new device.old device.new }
    ensures ready { OnOk result (C.can_call run.new.commands device.new) }
{
    for step in &script.steps {
        run_step(step, run, device)?;
    }
    Ok(())
}

#[cycle(run)]
fn run_step<C: Commands>(
    step: &ScriptStep,
    run: &mut ScriptRun<C>,
    device: &mut C::Device,
) -> Result<(), ScriptStop>
    requires { C.can_call run.old.commands device.old }
    ensures leads { let seen = step_pair step.now in Leads C.call_gives (LeftBy result)
        (when_due seen.0 (means_command C.outside next_answer seen.1)) (ending result)
        run.old run.new device.old device.new }
    ensures ready { OnOk result (C.can_call run.new.commands device.new) }
{
    if !is_due(step.when, run.status) {
        return Ok(());
    }
    run_command(&step.command, run, device)
}

fn is_due(when: When, status: u32) -> bool
    ensures { result ≡ is_due when status }
{
    match when {
        When::Always => true,
        When::OnSuccess => status == 0,
        When::OnFailure => status != 0,
    }
}

#[cycle(run)]
fn run_command<C: Commands>(
    command: &ScriptCommand,
    run: &mut ScriptRun<C>,
    device: &mut C::Device,
) -> Result<(), ScriptStop>
    requires { C.can_call run.old.commands device.old }
    ensures leads { Leads C.call_gives (LeftBy result)
        (means_command C.outside next_answer (command_tree command.now)) (ending result)
        run.old run.new device.old device.new }
    ensures ready { OnOk result (C.can_call run.new.commands device.new) }
{
    match command {
        ScriptCommand::Call(words) => run_call(words.as_slice(), run, device),
        ScriptCommand::Set(assignment) => run_set(assignment, run, device),
        ScriptCommand::If(choice) => run_choice(choice, run, device),
        ScriptCommand::For(for_loop) => run_loop(for_loop, run, device),
    }
}

#[cycle(run)]
fn run_choice<C: Commands>(
    choice: &Choice,
    run: &mut ScriptRun<C>,
    device: &mut C::Device,
) -> Result<(), ScriptStop>
    requires { C.can_call run.old.commands device.old }
    ensures leads { Leads C.call_gives (LeftBy result)
        (means_choice C.outside next_answer (if_tree choice.now)) (ending result)
        run.old run.new device.old device.new }
    ensures ready { OnOk result (C.can_call run.new.commands device.new) }
{
    for branch in &choice.branches {
        run_steps(&branch.test, run, device)?;
        if run.status == 0 {
            return run_steps(&branch.body, run, device);
        }
    }
    match &choice.other {
        Otherwise::Else(steps) => run_steps(steps, run, device),
        Otherwise::Nothing => {
            run.status = 0;
            Ok(())
        }
    }
}

#[cycle(run)]
fn run_loop<C: Commands>(
    for_loop: &ForLoop,
    run: &mut ScriptRun<C>,
    device: &mut C::Device,
) -> Result<(), ScriptStop>
    requires { C.can_call run.old.commands device.old }
    ensures leads { Leads C.call_gives (LeftBy result)
        (means_command C.outside next_answer (loop_tree for_loop.now)) (ending result)
        run.old run.new device.old device.new }
    ensures ready { OnOk result (C.can_call run.new.commands device.new) }
{
    let fields = expanded(for_loop.words.as_slice(), run)?;
    match fields {
        None => {
            run.status = 1;
            Ok(())
        }
        Some(fields) => {
            if fields.is_empty() {
                run.status = 0;
                return Ok(());
            }
            let name = for_loop.name.as_slice();
            run_rounds(name, fields.as_slice(), &for_loop.body, run, device)
        }
    }
}

#[cycle(run)]
fn run_rounds<C: Commands>(
    name: &[u8],
    fields: &[Bytes],
    body: &Script,
    run: &mut ScriptRun<C>,
    device: &mut C::Device,
) -> Result<(), ScriptStop>
    requires { C.can_call run.old.commands device.old }
    ensures leads { Leads C.call_gives (LeftBy result)
        (rounds C.outside name.now
        (means_steps C.outside next_answer (script_tree body.now)) fields.now)
        (ending result) run.old run.new device.old device.new }
    ensures ready { OnOk result (C.can_call run.new.commands device.new) }
{
    for field in fields {
        count(run)?;
        let _ = put(name, field.as_slice(), run)?;
        run_steps(body, run, device)?;
    }
    Ok(())
}
