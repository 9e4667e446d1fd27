//! Cursors on the line of a film: where they stand, what reads, seeks and tells answer, and which
//! halves of blocks a read needs.
#![tactic(auto)]

mod frames;
mod laws;
mod need;
mod reply;

pub use frames::Frames;
pub use laws::{
    equal_sides_stay, laps_go_where_seeks_go, laps_without_splices_are_seeks, mixed_lies_between,
    reads_go_on, runs_are_longest, runs_go_on_behind_patches, seeks_by_origins,
    seeks_go_to_the_least_place, spliced_stay_cursors, splices_fit_the_run, splices_keep_channels,
    splices_lie_between, states_stay_cursors, weights_are_parts,
};
pub use need::{Need, Needs, Task};
pub use reply::{Reply, Sought};
