//! Tests of the field, of sums of products over it, and of code words.
#![tactic(auto)]

#[cfg(test)]
mod field;
#[cfg(test)]
mod sums;
#[cfg(test)]
mod words;
