//! A side of an operator that associates to the right.
use crate::built::Built;
use grind_grammar::Binary;

// What stands before an operator, if it was built, and the operator.
#[derive(Drop)]
pub(crate) struct Side {
    pub(crate) side: Option<Built>,
    pub(crate) op: Binary,
}
