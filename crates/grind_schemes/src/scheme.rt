//! Formulas and terms over variables.
use grind_term_graph::{Head, SortId};

/// A formula or a term over the variables of a theorem. It holds itself, so its parts stand in a plain `Vec`.
#[derive(Drop)]
pub enum Scheme {
    /// A variable of the theorem, by its number from 0.
    Var(u32),
    /// A head of this sort at its arguments.
    Apply {
        /// The outermost symbol.
        head: Head,
        /// The sort of the whole.
        sort: SortId,
        /// The arguments, in order.
        args: Vec<Scheme>,
    },
}
