//! What the tests of the top call share: runs over memory, films by their parts, and constants.
#![tactic(auto)]

pub mod films;
mod numbers;
mod runs;

pub use numbers::constants;
pub use runs::{
    Failing, Files, NOTHING_FAILS, Parts, Run, files_of, joined, run_over, run_words, words_of,
};
