//! The world of events: sites, clients and the requests between them, and what each event does.
#![tactic(auto)]

pub mod apply;
pub mod audit;
pub mod calls;
pub mod delivery;
pub mod events;
pub mod lookups;
pub mod opening;
pub mod refusals;
pub mod requests;
pub mod sessions;
pub mod turns;
pub mod weights;
pub mod world;

pub use audit::Casts;
pub use events::{Applied, ApplyError, Entry, Event, Outcome, Skip};
pub use requests::Request;
pub use world::{Member, OpenRefused, OpenWhy, World};
