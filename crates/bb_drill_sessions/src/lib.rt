//! The program's own sessions, as the drill tries them: its board, settings and entries, the words
//! of each session, and each session by its plan and its work. It knows no command of the drill.
#![tactic(auto)]

mod documents;
mod end;
mod look;
mod made;
mod plan;
mod sessions;
mod words;

pub use sessions::DrillSessions;
