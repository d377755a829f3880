//! What a theorem or a goal begins with.
ghost use Rattle.std.specs.Prelude.{All};
ghost use Rattle.grind_grammar.specs.Keeps.{IsPlaced};
ghost use Rattle.grind_theory.specs.Kept.{IsPlacedBinder};

use grind_grammar::{Binder, Name};
use std::alloc::Global;

/// The name and the binders of a theorem or a goal, which stand in the text.
#[derive(Drop)]
pub(crate) struct Heading<'a> {
    /// Where memory is taken.
    pub(crate) alloc: Global,
    /// The text.
    pub(crate) text: &'a [u8],
    /// The name.
    pub(crate) name: Name,
    /// The binders, in order.
    pub(crate) binders: &'a [Binder],
    ghost name_placed: { IsPlaced text.now name },
    ghost binders_placed: { All (IsPlacedBinder text.now) binders.now },
}
