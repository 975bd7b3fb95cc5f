//! Tests of logs: how they are read and written back, judged and refused, and which names they give to versions.
#![tactic(auto)]

#[cfg(test)]
mod alike;
#[cfg(test)]
mod judged;
#[cfg(test)]
mod read;
#[cfg(test)]
mod refused;
#[cfg(test)]
mod serial;
