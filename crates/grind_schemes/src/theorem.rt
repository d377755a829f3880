//! What may be used in proofs.
ghost use Rattle.std.specs.Prelude.{◌≡◌};
ghost use Rattle.grind_schemes.specs.Theorems.{IsTheorem};

use crate::scheme::Scheme;
use grind_outside::List;
use grind_term_graph::SortId;
use std::marker::Model;

/// A theorem: its body holds whatever its variables stand for. Its variables are among those declared, each head
/// has arguments of the sorts that it asks for, and the body is a formula. A pattern is a declared function at its
/// arguments, each list of patterns holds every variable, and there is such a list exactly where there is a variable.
#[derive(Drop)]
pub struct Theorem {
    /// Its name.
    pub name: List<u8>,
    /// The sorts of its variables, numbered from 0.
    pub vars: List<SortId>,
    /// What it says.
    pub body: Scheme,
    /// The lists of patterns. Any of them may find the terms that the variables stand for.
    pub patterns: List<List<Scheme>>,
}

impl Model for Theorem {
    ghost use Rattle.std.specs.Coded.{codes};
    ghost use Rattle.grind_schemes.specs.contracts.scheme.Scheme as scheme;
    ghost use Rattle.grind_schemes.specs.Theorems.{TheoremData, IsTheorem, theorem_data};

    ghost Value = { TheoremData };

    ghost coded = { Prim.hlevel (codes, scheme.the_row.coded) };

    ghost view = { λ a. theorem_data a.name a.vars a.body a.patterns };

    ghost invariant = { λ a. IsTheorem (theorem_data a.name a.vars a.body a.patterns) };
}

impl Theorem {
    /// The name of the theorem. Whoever asks for it learns what every theorem keeps.
    pub fn name(&self) -> &[u8]
        ensures value { result.now ≡ self.now.name }
        ensures keeps { IsTheorem self.now }
    {
        self.name.as_slice()
    }
}
