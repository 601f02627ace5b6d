//! The tests that call the crates. `rt try --test` runs them, and nothing proves them.
#![tactic(auto)]

#[cfg(test)]
mod counting;
#[cfg(test)]
mod hostile;
#[cfg(test)]
mod messages;
#[cfg(test)]
mod modules;
#[cfg(test)]
mod pictures;
#[cfg(test)]
mod places;
#[cfg(test)]
mod program;
#[cfg(test)]
mod sources;
#[cfg(test)]
mod threads;
#[cfg(test)]
mod worlds;
