//! Finds a place in a list of numbers that never falls, and counts the looks at the list.
#![tactic(auto)]

mod search;
mod starts;
#[cfg(test)]
mod tests;

pub use search::last_at_most;
pub use starts::{SliceStarts, Starts};
