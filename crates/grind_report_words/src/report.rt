//! Reports.
use crate::board::{RawBoard, Reason};
use crate::proof::RawProof;
use grind_outside::List;

/// What a report says of a goal.
#[derive(Drop)]
pub enum Block {
    /// The goal is closed, by this proof.
    Closed {
        /// The name of the goal.
        name: List<u8>,
        /// The proof.
        proof: RawProof,
    },
    /// The goal is open, for this reason, which the board shows.
    Unclosed {
        /// The name of the goal.
        name: List<u8>,
        /// The reason.
        reason: Reason,
        /// The board.
        board: RawBoard,
    },
    /// The goal is open, and no search was made.
    Unexplored {
        /// The name of the goal.
        name: List<u8>,
    },
}

/// A report: a block for each goal, in order.
#[derive(Drop)]
pub struct Report {
    /// The blocks.
    pub blocks: List<Block>,
}
