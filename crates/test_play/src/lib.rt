//! The tests of `play`: scripts over films, through the top call over memory.
#![tactic(auto)]

#[cfg(test)]
mod films;
#[cfg(test)]
mod halves;
#[cfg(test)]
mod laps;
#[cfg(test)]
mod plays;
#[cfg(test)]
mod refusals;
#[cfg(test)]
mod scripts;
#[cfg(test)]
mod session;
#[cfg(test)]
mod trials;
