//! Tests of what lies outside the world: its sites, shelves and sinks, the text of its log, and its history's judge.
#![tactic(auto)]

#[cfg(test)]
mod blobs;
#[cfg(test)]
mod boxes;
#[cfg(test)]
mod legality;
#[cfg(test)]
mod logs;
#[cfg(test)]
mod records;
#[cfg(test)]
mod sites;
