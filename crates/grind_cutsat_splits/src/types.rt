//! What is answered.
use grind_cutsat_assignment::Chosen;
use grind_linear_forms::Form;
use grind_outside::List;

/// The assignment; or where there is none, the split that is wanted; or a post that does not fit.
#[derive(Drop)]
pub enum Verdict {
    /// The atoms in the order of their numbers, each with its value.
    Assigned(List<Chosen>),
    /// It is to be split on whether this form is at most 0.
    Split(Form),
    /// This post does not fit in 128 bits when it is evaluated, or the split that it wants does not.
    Unfit(u32),
}
