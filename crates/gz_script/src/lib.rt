//! Schedules: how their lines are played. The lines themselves and how they are read stand in `gz_lines`, and are passed on.
#![tactic(auto)]

pub mod outboxes;
pub mod playing;

pub use gz_lines::{Line, fields, line, read_schedule, schedule};
pub use playing::play;
