ghost use Rattle.std.specs.Prelude.{◌≡◌};
ghost use Rattle.std.specs.Process.{exit_status};
ghost use Rattle.bb_tool.specs.Ran.{ran_by};
ghost use Rattle.bb_plan.specs.Status.{code_of};
ghost use Rattle.bb_tool.specs.Sending.{IsSentOrCut};
ghost use Rattle.bbx.specs.Act.{ByOpening, IsInPlace, IsOneSession, early_status, early_text};

use crate::early::{Early, EarlyTexts};
use bb_base::{Files, Sink, TextList};
use bb_flash::Board;
use bb_tool::{Status, run, send_fault, send_text};
use std::alloc::Global;
use std::process::ExitCode;

/// What the program does once its words are read and its device is open, over any files, board and
/// output: one session of the words from COMMAND on. Where no device was opened the text that comes
/// in place of a session is sent, and no file is read.
pub fn act<F: Files, B: Board, K: Sink>(
    alloc: Global,
    words: &TextList,
    texts: EarlyTexts<'_>,
    begun: &mut Result<B, Early>,
    files: &mut F,
    out: &mut K,
) -> Status
    ensures whole { ByOpening
        (λ before after. IsOneSession (ran_by F.folder B.device K.sink words.now
        files.old files.new before after out.old out.new result))
        (λ early. IsInPlace
        (early_text texts.entry.usage.now texts.entry.version.now early) (early_status early)
        (F.folder files.old) (F.folder files.new) (K.sink out.old) (K.sink out.new) result)
        begun.old begun.new }
{
    match begun {
        Ok(board) => run(alloc, words, files, board, out),
        Err(early) => send_early(*early, texts, out),
    }
}

/// Sends the text that comes in place of a session.
pub fn send_early<K: Sink>(early: Early, texts: EarlyTexts<'_>, out: &mut K) -> Status
    ensures { IsSentOrCut (early_text texts.entry.usage.now texts.entry.version.now early)
        (early_status early) (K.sink out.old) (K.sink out.new) result }
{
    match early {
        Early::Help => send_text(texts.usage.as_bytes(), Status::Done, out),
        Early::Version => send_text(texts.version.as_bytes(), Status::Done, out),
        Early::NoSession => send_fault(Status::BadWords, "BadWords 0", out),
        Early::Refused(_) => send_fault(Status::ReadFault, "ReadFault", out),
        Early::NoMemory => send_fault(Status::NoMemory, "NoMemory", out),
    }
}

/// The status with which the process ends.
pub fn exit_code(status: Status) -> ExitCode
    ensures { exit_status result ≡ code_of status }
{
    ExitCode::from(status.code())
}
