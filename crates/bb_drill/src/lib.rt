//! The drill: sessions with cuts and decays, drawn from a number, on a board in memory, and a count
//! of the tables that a load gave although it may not. The program that it tries stands under a
//! trait: the drill knows neither words nor states nor sessions.
#![tactic(auto)]

mod allowed;
mod board;
mod command;
mod counts;
mod decay;
mod drawn;
mod draws;
mod met;
mod run;
mod session;
mod sessions;
mod tally;

pub use command::DrillCommand;
pub use counts::DrillCounts;
pub use drawn::{DrawnSession, PlannedCut};
pub use draws::draw_sessions;
pub use run::drill;
pub use sessions::{SessionEnd, Sessions};
