use bb_base::{Bytes, NoMemory};
use bb_plan::Refusal;

/// What is sent of a session whose work was done: a text, and after it the line of a refusal, where
/// one came after that text.
#[derive(Debug, Drop)]
pub struct Report {
    pub text: Bytes,
    pub refusal: Option<Refusal>,
}

impl Report {
    ghost use Rattle.std.specs.Prelude.{◌≡◌, ℕ, IfOk, List, None};
    ghost use Rattle.bb_session.specs.Doing.{IsTold};

    /// The work is done, and this is its text.
    pub fn done(text: Bytes) -> Report
        ensures { result ≡ record { text = text; refusal = None } }
    {
        Report {
            text,
            refusal: None,
        }
    }

    /// The same of a text for which memory may have been refused.
    pub(crate) fn of(text: Result<Bytes, NoMemory>) -> Result<Report, Refusal>
        ensures { (told : List ℕ) → IfOk text (λ bytes. bytes ≡ told) → IsTold told result }
    {
        Ok(Report::done(text?))
    }
}
