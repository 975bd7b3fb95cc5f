//! Tests of the lock: the history of two seats, on one thread and on two.
#![tactic(auto)]

#[cfg(test)]
mod histories;
