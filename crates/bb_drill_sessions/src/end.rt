ghost use Rattle.std.specs.Prelude.{◌≡◌};
ghost use Rattle.bb_drill_sessions.specs.Ends.{end_given, end_of_status, status_given};

use bb_drill::SessionEnd;
use bb_plan::{Refusal, Status};
use bb_session::Report;

/// How a session ended, by what was given of it.
pub(crate) fn end_of(given: Result<Report, Refusal>) -> SessionEnd
    ensures { result ≡ end_given given }
{
    end_by(status_of(given))
}

fn status_of(given: Result<Report, Refusal>) -> Status
    ensures { result ≡ status_given given }
{
    match given {
        Ok(Report { text: _, refusal }) => match refusal {
            Some(refusal) => refusal.status(),
            None => Status::Done,
        },
        Err(refusal) => refusal.status(),
    }
}

fn end_by(status: Status) -> SessionEnd
    ensures { result ≡ end_of_status status }
{
    match status {
        Status::Done | Status::NoTarget | Status::NoGood | Status::StartFailed => SessionEnd::Whole,
        Status::ReadFault => SessionEnd::Unread,
        Status::WriteFault => SessionEnd::Unwritten,
        _ => SessionEnd::NoMemory,
    }
}
