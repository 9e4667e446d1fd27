//! Makes inputs that follow from a number: constants, films and scripts, by numbers that a
//! generator draws.
#![tactic(auto)]

mod constants;
mod drawn;
mod draws;
mod film;
mod links;
mod made_setup;
mod packet;
mod pages;
mod script;
#[cfg(test)]
mod tests;

pub use constants::make_constants;
pub use draws::Draws;
pub use film::make_film;
pub use memory::NoMemory;
pub use script::make_script;
