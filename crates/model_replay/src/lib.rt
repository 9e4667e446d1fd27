//! How hands share what they decode: the slots of a bank, the claims that stand in them, and the
//! turns of an errand, which gets one block. Keys stand here, and no sample.
#![tactic(auto)]

mod event;
mod slot;

pub use event::{Event, How};
pub use slot::Slot;
