//! Partial matches.
use crate::slots::Slots;

/// A partial match: what the variables stand for so far, and the greatest generation of the nodes that were used.
#[derive(Drop, Debug)]
pub struct Partial {
    /// What the variables stand for.
    pub slots: Slots,
    /// The greatest generation so far.
    pub generation: u32,
}
