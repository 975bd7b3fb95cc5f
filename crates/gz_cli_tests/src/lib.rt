//! Tests of `gz_cli`: runs over a shelf and a sink in memory, and the edge over a real file and standard output.
#![tactic(auto)]

#[cfg(test)]
mod edge;
#[cfg(test)]
mod runs;
#[cfg(test)]
mod shows;
