ghost use Rattle.std.specs.Prelude.{◌≡◌, ◌≤◌, ◌++◌, OnOk, length, true};
ghost use Rattle.bb_plan.specs.Refusal.{IsSendableRefusal, status_of};
ghost use Rattle.bb_tool.specs.Lines.{fault_text, line_of};
ghost use Rattle.bb_tool.specs.Sending.{IsSentOrCut, IsSentMade, IsSentMemory, IsSentOr};
ghost use Rattle.bb_tool.specs.Sending.{IsSentRefusal};
ghost use Rattle.bb_tool.specs.Sending.{IsSentReport, status_unsent};
ghost use Rattle.bb_plan.specs.Refusal.{takes_memory};

use crate::line::{fault_line, fixed_line, line};
use bb_base::{Bytes, Failed, NoMemory, Sink};
use bb_plan::{Refusal, Status};
use bb_session::Report;
use std::alloc::{AllocError, Global};

/// Sends a text, and gives the status with which the program ends: `ended` where the text was sent
/// whole, else `SinkFault`, but that `NoMemory` stays.
pub fn send_text<K: Sink>(text: &[u8], ended: Status, sink: &mut K) -> Status
    ensures told { IsSentOrCut text.now ended (K.sink sink.old) (K.sink sink.new) result }
{
    match sink.write(text) {
        Ok(()) => ended,
        Err(_) => status_unsent(ended),
    }
}

fn status_unsent(ended: Status) -> Status
    ensures { result ≡ status_unsent ended }
{
    match ended {
        Status::NoMemory => Status::NoMemory,
        _ => Status::SinkFault,
    }
}

/// Sends the one line of a fault that comes before a session, and gives the status with which the
/// program ends. The line is `fault`, the status's number and these words, of at most 21 bytes.
pub fn send_fault<K: Sink>(status: Status, words: &str, sink: &mut K) -> Status
    requires { length words.now ≤ 21 }
    ensures told { IsSentOrCut (fault_text status words.now) status
        (K.sink sink.old) (K.sink sink.new) result }
{
    send_text(fault_line(status, words).as_str().as_bytes(), status, sink)
}

/// Sends what a session's work gave, and gives the status with which the session ends. The line of
/// a refusal that names something goes out in one piece with the text before it, which takes
/// memory; where that is refused, so is the session. Every other line takes none, and goes out in a
/// piece of its own.
pub(crate) fn send_report<K: Sink>(alloc: Global, report: Report, sink: &mut K) -> Status
    ensures told { IsSentReport report (K.sink sink.old) (K.sink sink.new) result }
{
    let Report { text, refusal } = report;
    match refusal {
        None => send_text(text.as_slice(), Status::Done, sink),
        Some(refusal) => send_both(alloc, text, &refusal, sink),
    }
}

fn send_both<K: Sink>(alloc: Global, text: Bytes, refusal: &Refusal, sink: &mut K) -> Status
    ensures told { IsSentOr (takes_memory refusal.now) (text ++ line_of refusal.now)
        (status_of refusal.now) (K.sink sink.old) (K.sink sink.new) result }
{
    match fixed_line(refusal) {
        Some(line) => {
            let line = line.as_str().as_bytes();
            send_pieces(text.as_slice(), line, refusal.status(), sink)
        }
        None => send_after(alloc, text, refusal, sink),
    }
}

// Sends two pieces, the second only where the first was sent whole.
fn send_pieces<K: Sink>(first: &[u8], second: &[u8], ended: Status, sink: &mut K) -> Status
    ensures told { IsSentOrCut (first.now ++ second.now) ended (K.sink sink.old) (K.sink sink.new)
        result }
{
    match sink.write(first) {
        Ok(()) => send_text(second, ended, sink),
        Err(Failed) => status_unsent(ended),
    }
}

fn send_after<K: Sink>(alloc: Global, mut text: Bytes, refusal: &Refusal, sink: &mut K) -> Status
    requires { takes_memory refusal.now ≡ true }
    ensures told { IsSentOr (takes_memory refusal.now) (text ++ line_of refusal.now)
        (status_of refusal.now) (K.sink sink.old) (K.sink sink.new) result }
{
    match add_line(alloc, &mut text, refusal) {
        Ok(()) => send_text(text.as_slice(), refusal.status(), sink),
        Err(NoMemory) => send_no_memory(sink),
    }
}

fn add_line(alloc: Global, text: &mut Bytes, refusal: &Refusal) -> Result<(), NoMemory>
    ensures { OnOk result (text.new ≡ text.old ++ line_of refusal.now) }
{
    let line = line(alloc, refusal)?;
    text.add(line.as_bytes())
}

/// Sends the one line of a refusal before which no text was gathered, and gives the status with
/// which the session ends. A line that names something takes memory; where that is refused, so is
/// the session. The lines of refusals after a call of the device take none.
pub(crate) fn send_refusal<K: Sink>(alloc: Global, refusal: &Refusal, sink: &mut K) -> Status
    requires { IsSendableRefusal refusal.now }
    ensures told { IsSentRefusal refusal.now (K.sink sink.old) (K.sink sink.new) result }
{
    match fixed_line(refusal) {
        Some(line) => send_text(line.as_str().as_bytes(), refusal.status(), sink),
        None => send_made(line(alloc, refusal), refusal.status(), sink),
    }
}

fn send_made<K: Sink>(made: Result<String, AllocError>, ended: Status, sink: &mut K) -> Status
    ensures told { IsSentMade made ended (K.sink sink.old) (K.sink sink.new) result }
{
    match made {
        Ok(line) => send_text(line.as_bytes(), ended, sink),
        Err(_) => send_no_memory(sink),
    }
}

fn send_no_memory<K: Sink>(sink: &mut K) -> Status
    ensures told { IsSentMemory (K.sink sink.old) (K.sink sink.new) result }
{
    send_fault(Status::NoMemory, "NoMemory", sink)
}
