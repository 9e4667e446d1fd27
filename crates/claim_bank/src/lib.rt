//! Banks of values that hands share by key. A pin of a key shows its value, a lease of its slot
//! lets a value be published there, and each value meets a fact that is chosen with the bank.
#![tactic(auto)]

mod bench;
mod core_bank;
mod slots;

pub use bench::{Bench, Fact};
pub use core_bank::{CoreBank, CoreLease, CorePin};

#[cfg(test)]
mod tests;
