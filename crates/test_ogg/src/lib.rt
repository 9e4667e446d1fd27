//! The tests of the crates that find pages, links and packets in a film. They stand above those
//! crates, so that each of those is proved once, without tests.
#![tactic(auto)]

#[cfg(test)]
mod chains;
#[cfg(test)]
mod entries;
#[cfg(test)]
mod pages;
#[cfg(test)]
mod written_pages;
