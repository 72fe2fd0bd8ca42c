ghost use Rattle.std.specs.Prelude.{◌≡◌, false, IfErr};
ghost use Rattle.bb_flash.specs.Cuts.{IsLater};
ghost use Rattle.bb_flash.specs.Device.{IsDevice};
ghost use Rattle.bb_tool.specs.Calls.{IsSession};
ghost use Rattle.bb_tool.specs.Clauses.{EndsEarly, KeepsTheCopies, KnowsItsCauses, LeavesTheRest};
ghost use Rattle.bb_tool.specs.Clauses.{SendsTheSession, StartsTheBest, WorksUndisturbed};
ghost use Rattle.bb_tool.specs.SessionAnswer.{IsSessionAnswer, IsTaskDone};
ghost use Rattle.bb_plan.specs.Plan.{IsTaskFor, names_file, task_as};
ghost use Rattle.bb_tool.specs.Ran.{ran_by};
ghost use Rattle.bb_plan.specs.FilesRead.{IsFolderLater};
ghost use Rattle.bb_plan.specs.Refusal.{IsSendableRefusal};

use crate::drill::drill_report;
use crate::send::{send_refusal, send_report};
use bb_base::{Files, Sink, TextList};
use bb_flash::Board;
use bb_plan::{PlannedTask, Refusal, Status, plan_session};
use bb_session::{Report, compare, do_work};
use std::alloc::Global;

/// One session, over files, a device and an output: the words after the device and its geometry,
/// the files that they name, the layout, the work on the device, and the text that is sent, after
/// all other work. The first refusal ends it, with one fault line after the text that the work
/// gathered.
pub fn run<F: Files, B: Board, K: Sink>(
    alloc: Global,
    words: &TextList,
    files: &mut F,
    board: &mut B,
    sink: &mut K,
) -> Status
    // What is sent, and the status.
    ensures sent { SendsTheSession (ran_by F.folder B.device K.sink words.now
        files.old files.new board.old board.new sink.old sink.new result) }
    // What stays: the files, what came before on the device, and all of it after an early refusal.
    ensures stays { LeavesTheRest (ran_by F.folder B.device K.sink words.now
        files.old files.new board.old board.new sink.old sink.new result) }
    // What became of the copies: at exit, in each image on the way, and outside of them.
    ensures copies { KeepsTheCopies (ran_by F.folder B.device K.sink words.now
        files.old files.new board.old board.new sink.old sink.new result) }
    // Where nothing failed: text and status, and the copies to the byte.
    ensures undisturbed { WorksUndisturbed (ran_by F.folder B.device K.sink words.now
        files.old files.new board.old board.new sink.old sink.new result) }
    // Sessions that end early: a file met a fault, or memory was refused.
    ensures early { EndsEarly (ran_by F.folder B.device K.sink words.now
        files.old files.new board.old board.new sink.old sink.new result) }
    // What is started: at most one system, of the best target, after the save of its attempt.
    ensures starts { StartsTheBest (ran_by F.folder B.device K.sink words.now
        files.old files.new board.old board.new sink.old sink.new result) }
    // Each answer but `Done`, and its cause.
    ensures causes { KnowsItsCauses (ran_by F.folder B.device K.sink words.now
        files.old files.new board.old board.new sink.old sink.new result) }
{
    answer(alloc, words, files, board, sink)
}

fn answer<N: Files, B: Board, K: Sink>(
    alloc: Global,
    words: &TextList,
    files: &mut N,
    board: &mut B,
    sink: &mut K,
) -> Status
    ensures session { IsSession (ran_by N.folder B.device K.sink words.now
        files.old files.new board.old board.new sink.old sink.new result) }
    ensures files { IsFolderLater (N.folder files.old) (N.folder files.new) }
    ensures unread { names_file words.now (B.device board.old).geometry ≡ false
        → N.folder files.new ≡ N.folder files.old }
    ensures later { IsLater (B.device board.old) (B.device board.new) }
{
    match session(alloc, words, files, board) {
        Ok(report) => send_report(alloc, report, sink),
        Err(refusal) => send_refusal(alloc, &refusal, sink),
    }
}

// What is sent of a session, or its refusal.
fn session<N: Files, B: Board>(
    alloc: Global,
    words: &TextList,
    files: &mut N,
    board: &mut B,
) -> Result<Report, Refusal>
    ensures gives { IsSessionAnswer words.now (N.folder files.old) (N.folder files.new)
        (B.device board.old) (B.device board.new) result }
    ensures tellable { IfErr result IsSendableRefusal }
    ensures files { IsFolderLater (N.folder files.old) (N.folder files.new) }
    ensures unread { names_file words.now (B.device board.old).geometry ≡ false
        → N.folder files.new ≡ N.folder files.old }
    ensures later { IsLater (B.device board.old) (B.device board.new) }
{
    let task = plan_session(alloc, words, files, board.geometry())?;
    do_task(alloc, board, task)
}

// What is sent of the task of a plan, or its refusal.
fn do_task<B: Board>(alloc: Global, board: &mut B, task: PlannedTask) -> Result<Report, Refusal>
    requires task { IsTaskFor (B.device board.old).geometry (task_as task) }
    requires whole { IsDevice (B.device board.old) }
    ensures done { IsTaskDone (task_as task) (B.device board.old) (B.device board.new) result }
    ensures tellable { IfErr result IsSendableRefusal }
    ensures later { IsLater (B.device board.old) (B.device board.new) }
{
    match task {
        PlannedTask::OnCopies(plan) => do_work(alloc, board, plan),
        PlannedTask::Prints(text) => Ok(Report::done(text)),
        PlannedTask::Drills(numbers) => drill_report(alloc, numbers),
        PlannedTask::Compares(place) => compare(alloc, board, &place),
    }
}
