//! Why an edge of a closure holds.

/// Why the two nodes of an edge are equal.
#[derive(Clone, Copy, Debug, PartialEq, Eq)]
pub enum Why {
    /// The line of this number claims it.
    Line(u32),
    /// They have one head and one sort, and arguments that earlier edges join.
    Congruence,
}
