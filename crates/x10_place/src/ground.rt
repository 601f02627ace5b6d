//! What instructions of a place work on.

use crate::stay::Stay;
use crate::store::Store;
use slab::Slab;
use std::alloc::Global;
use x10_verify::Verified;

/// What instructions of a place work on: the program, the stays of activities by key, and what they share. What an
/// instruction does that a stay can't do by itself is a method, in the file of its subject.
#[derive(Drop)]
pub(crate) struct Ground<'a> {
    pub(crate) alloc: Global,
    pub(crate) verified: &'a Verified<'a>,
    pub(crate) stays: Slab<Stay>,
    pub(crate) store: Store,
}
