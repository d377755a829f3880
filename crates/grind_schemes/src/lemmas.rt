//! What a theory gives to prove with.
ghost use Rattle.std.specs.Prelude.{◌≡◌, []};
ghost use Rattle.grind_schemes.specs.Limits.{IsStandard};

use crate::limits::Limits;
use crate::theorem::Theorem;
use grind_outside::List;
use std::alloc::Global;

/// The theorems of a theory, in its order, and the limits of a search.
#[derive(Drop)]
pub struct Lemmas {
    /// The theorems, numbered from 0.
    pub theorems: List<Theorem>,
    /// How far a search may go.
    pub limits: Limits,
}

impl Lemmas {
    /// No theorem, and the standard limits.
    pub fn none(alloc: Global) -> Lemmas
        ensures theorems { result.theorems ≡ [] }
        ensures limits { IsStandard result.limits }
    {
        Lemmas {
            theorems: List::new(alloc),
            limits: Limits::standard(),
        }
    }
}
