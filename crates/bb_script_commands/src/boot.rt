ghost use Rattle.std.specs.Prelude.{◌≡◌, IfOk};
ghost use Rattle.bb_script_commands.specs.Calling.{HasCalledOne};
ghost use Rattle.bb_script_commands.specs.Held.{CanCall, held_of};
ghost use Rattle.bb_script_commands.specs.Sending.{FitsCount, Replies, boot_reply, boot_sends};
ghost use Rattle.bb_script_commands.specs.Sending.{ended_fault, start_line, tries_line};
ghost use Rattle.bb_script_commands.specs.declared.words.OutsideCommand.TheVariants.{Boot};

use crate::directions::Directions;
use crate::show::target_name;
use crate::so_far::SoFar;
use bb_base::{Bytes, NoMemory};
use bb_chooser::Chooser;
use bb_flash::Board;
use bb_interpreter::Reply;
use bb_shell::{BootEnd, boot_run};
use bb_state::{CopyFault, State};
use std::alloc::Global;

/// Boots. The first boot alone begins with a reset.
pub(crate) fn boot<B: Board>(
    alloc: Global,
    state: &mut State,
    by: &Directions,
    so_far: &mut SoFar,
    board: &mut B,
) -> Reply
    requires { CanCall (held_of state.old by.now so_far.old) (B.device board.old) }
    ensures { HasCalledOne Boot (held_of state.old by.now so_far.old) (B.device board.old) result
        (held_of state.new by.now so_far.new) (B.device board.new) }
{
    let first = !so_far.booted;
    let end = boot_run(state, &by.chooser, &by.plans, by.cause, first, board);
    so_far.booted = true;
    so_far.fault = ended_fault(end);
    reply_to(alloc, &by.chooser, end)
}

// The fault by which a boot ended, if one did.
fn ended_fault(end: BootEnd) -> Option<CopyFault>
    ensures { result ≡ ended_fault end }
{
    match end {
        BootEnd::Fault(fault) => Some(fault),
        BootEnd::Started { .. } | BootEnd::NoTarget | BootEnd::StartFailed { .. } => None,
    }
}

// What is replied to the end of a boot.
fn reply_to(alloc: Global, chooser: &Chooser, end: BootEnd) -> Reply
    ensures replies { Replies (boot_reply chooser.now end) (boot_sends end) result }
    ensures counted { FitsCount end }
{
    match end {
        BootEnd::Started {
            target,
            left,
            tries,
        } => {
            let name = target_name(chooser, target as usize);
            match start_line(alloc, name, left, tries) {
                Ok(line) => Reply::Started(line),
                Err(_) => Reply::NoMemory,
            }
        }
        BootEnd::NoTarget => Reply::Done(1, Bytes::none(alloc)),
        BootEnd::StartFailed { tries, .. } => match tries_line(alloc, tries) {
            Ok(line) => Reply::Done(1, line),
            Err(_) => Reply::NoMemory,
        },
        BootEnd::Fault(_) => Reply::Fault,
    }
}

fn start_line(alloc: Global, name: &str, left: u32, tries: u64) -> Result<Bytes, NoMemory>
    ensures { IfOk result (λ line. line ≡ start_line name.now left tries) }
{
    let mut line = Bytes::none(alloc);
    let words = format!(in alloc; "start {name} left {left} tries {tries}\n")?;
    line.add(words.as_bytes())?;
    Ok(line)
}

fn tries_line(alloc: Global, tries: u64) -> Result<Bytes, NoMemory>
    ensures { IfOk result (λ line. line ≡ tries_line tries) }
{
    let mut line = Bytes::none(alloc);
    let words = format!(in alloc; "tries {tries}\n")?;
    line.add(words.as_bytes())?;
    Ok(line)
}
