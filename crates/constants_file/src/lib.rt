//! Reads a constants file: the decibel values, window slopes and cosines that a synthesis in whole
//! numbers works with.
#![tactic(auto)]

mod constants;
mod file;
mod turns;

pub use constants::Constants;
pub use model_synthesis::ConstantsFault;

#[cfg(test)]
mod tests;
