//! Flash devices: their geometries, what they hold, what each call leaves of it, and the plans by
//! which a board starts a system.
//! Any crate above bb_base may know it.
#![tactic(auto)]

mod board;
mod cells;
mod fault;
mod flash;
mod geometry;
mod health;
mod log;
mod mem_board;
mod pages;
mod plan;
mod region;

pub use board::Board;
pub use fault::{Fault, Fill};
pub use flash::Flash;
pub use geometry::{Geometry, geometry_of};
pub use health::Health;
pub use mem_board::MemBoard;
pub use plan::{Plan, PlanList};
pub use region::Region;
