//! The report of a script over a film: what the cursors of each lane answer from what is heard of
//! the film, and that the halves of its blocks are what cursors ask for.
#![tactic(auto)]

mod laws;

pub use laws::{
    crosses_itself, crosses_open_ones, each_has_an_answer, halves_serve_cursors, lanes_are_apart,
    opens_once, others_stay,
};
