//! The line of a film in samples: what decoding each link from its first packet on gives, trimmed;
//! what is written of it; and that an index gives it from single halves of blocks.
#![tactic(auto)]

mod laws;

pub use laws::{
    blocks_are_small, blocks_are_whole, counts_agree, facts_agree, line_by_items, line_by_origins,
    links_of_films, spans_fit_halves,
};
