//! The tests of `setup_header`. They stand above that crate, so that it is proved once, without
//! tests.
#![tactic(auto)]

#[cfg(test)]
mod setups;
