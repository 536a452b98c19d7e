//! What all workers share.

use crate::attend::{Muster, Serves};
use r9_lock::Shared;
use std::alloc::Global;

/// The handle, the allocator and the lock, with how many sessions the workers attend to, how many workers there are, and where they
/// come together.
#[derive(Drop)]
pub(crate) struct Room<'a, 'b, T: Serves, R> {
    pub(crate) rt: &'a R,
    pub(crate) alloc: Global,
    pub(crate) lock: &'b Shared<T>,
    pub(crate) sessions: u32,
    pub(crate) workers: u32,
    pub(crate) all: Muster,
}
