//! What a player reads and writes: files by their names, streams that are written to, gates that
//! are called before each turn, and counts of steps.
#![tactic(auto)]

mod clean;
mod file_shelf;
mod gate;
mod memory_shelf;
mod memory_sink;
mod shelf;
mod sink;
mod std_sink;
mod steps;
#[cfg(test)]
mod tests;

pub use clean::{CleanShelf, CleanSink};
pub use file_shelf::FileShelf;
pub use gate::{Gate, OpenGate, Point};
pub use memory_shelf::MemShelf;
pub use memory_sink::MemSink;
pub use shelf::{FetchFault, Shelf};
pub use sink::{PutFault, Sink};
pub use std_sink::StdSink;
pub use steps::Steps;
