//! Tests of the client of a session, which is driven by hand over three sites in memory.
#![tactic(auto)]

#[cfg(test)]
mod answers;
#[cfg(test)]
mod driver;
#[cfg(test)]
mod network;
#[cfg(test)]
mod scenes;
