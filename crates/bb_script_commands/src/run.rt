ghost use Rattle.std.specs.Prelude.{◌≡◌, true, is_some};
ghost use Rattle.bb_interpreter.specs.declared.run.ScriptEnd.TheVariants as ends;
ghost use Rattle.bb_script.specs.Views.{script_tree};
ghost use Rattle.bb_script_commands.specs.Held.{CanCall};
ghost use Rattle.bb_script_commands.specs.Scripts.{IsRunEnd, RanOver};

use crate::run_end::{RunEnd, RunResult};
use crate::script_commands::ScriptCommands;
use bb_flash::Board;
use bb_interpreter::{ScriptEnd, ScriptRun};
use bb_script::Script;
use bb_state::CopyFault;
use std::alloc::Global;

/// Runs a script, of which docs/FORMATS.md says what it does. The state's last load or save
/// answered Ok, and the chooser was bound to its layout. After a refused allocation the text is a
/// front of what was to be sent, and the state and the board are as the commands so far left them.
pub fn run_script<B: Board>(
    alloc: Global,
    script: &Script,
    commands: ScriptCommands<B>,
    board: &mut B,
) -> RunResult
    requires { CanCall commands (B.device board.old) }
    ensures { RanOver B.device (script_tree script.now) commands board.old board.new result }
{
    let mut run = ScriptRun::new(alloc, commands);
    let end = run.run(script, board);
    let ScriptRun { commands, text, .. } = run;
    let end = run_end(end, commands.fault());
    RunResult {
        text,
        end,
        state: commands.into_state(),
    }
}

fn run_end(end: ScriptEnd, fault: Option<CopyFault>) -> RunEnd
    requires { end ≡ ends.Fault → is_some fault ≡ true }
    ensures { IsRunEnd end fault result }
{
    match end {
        ScriptEnd::Done(status) => RunEnd::Done(status),
        ScriptEnd::Started => RunEnd::Started,
        ScriptEnd::StepLimit => RunEnd::StepLimit,
        ScriptEnd::Fault => {
            let Some(fault) = fault else { unreachable!() };
            RunEnd::Fault(fault)
        }
        ScriptEnd::NoMemory => RunEnd::NoMemory,
    }
}
