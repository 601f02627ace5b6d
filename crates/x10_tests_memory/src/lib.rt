//! The tests of refused memory.
#![tactic(auto)]

#[cfg(test)]
mod begin;
#[cfg(test)]
mod copies;
#[cfg(test)]
mod heaps;
#[cfg(test)]
mod modules;
#[cfg(test)]
mod places;
#[cfg(test)]
mod programs;
#[cfg(test)]
mod threads;
#[cfg(test)]
mod worlds;
