//! Tests of what texts read as: configurations, schedules and words.
#![tactic(auto)]

#[cfg(test)]
mod schedules;
#[cfg(test)]
mod settings;
#[cfg(test)]
mod words;
