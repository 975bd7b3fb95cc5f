//! Tests of records as bytes and of their lines, of objects that are cut into them, and of objects that are gathered from them.
#![tactic(auto)]

#[cfg(test)]
mod cuts;
#[cfg(test)]
mod fragments;
#[cfg(test)]
mod gatherings;
#[cfg(test)]
mod rows;
#[cfg(test)]
mod shown;
