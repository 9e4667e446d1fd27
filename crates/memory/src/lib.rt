//! A list of which contracts see the items alone, and the answer of a call that found no memory.
#![tactic(auto)]

mod list;
mod no_memory;

pub use list::Sequence;
pub use no_memory::NoMemory;

#[cfg(test)]
mod tests;
