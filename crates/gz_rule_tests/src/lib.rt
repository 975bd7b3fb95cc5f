//! Tests of the values, of the acceptor's steps, and of what votes let a coordinator choose and show to be chosen.
#![tactic(auto)]

#[cfg(test)]
mod acceptor;
#[cfg(test)]
mod acts;
#[cfg(test)]
mod calls;
#[cfg(test)]
mod choices;
#[cfg(test)]
mod configurations;
#[cfg(test)]
mod evidences;
#[cfg(test)]
mod keys;
#[cfg(test)]
mod lists;
#[cfg(test)]
mod names;
#[cfg(test)]
mod quorums;
#[cfg(test)]
mod rows;
#[cfg(test)]
mod samples;
