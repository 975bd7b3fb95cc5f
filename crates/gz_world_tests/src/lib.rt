//! Tests of worlds over sites in memory, and of the schedules that are played in them.
#![tactic(auto)]

#[cfg(test)]
mod boxes;
#[cfg(test)]
mod opened;
#[cfg(test)]
mod played;
#[cfg(test)]
mod worlds;
