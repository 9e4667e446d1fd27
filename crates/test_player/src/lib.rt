//! The tests of the top call, and of the library's calls together.
#![tactic(auto)]

#[cfg(test)]
mod runs;
