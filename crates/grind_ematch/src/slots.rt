//! What the variables of a theorem stand for, as far as it is known.
ghost use Rattle.std.specs.Prelude.{◌≡◌, ◌<◌, ◌^◌, length, nat_eq, IfOk};
ghost use Rattle.std.specs.Option.{option_eq};
ghost use Rattle.std.specs.Cmp.Lexicographic.{pointwise, lists_per, lists_equiv};
ghost use Rattle.std.specs.Hash as fed;
ghost use Rattle.std.specs.Cmp.Rules.{comparing};
ghost use Rattle.grind_ematch.specs.SlotsEqual.{slots_fed_alike};
ghost use Rattle.std.proofs.Common.{rules};

use grind_outside::{List, Memory};
use grind_term_graph::NodeId;
use std::alloc::Global;
use std::hash::{Hash, Hasher};
use std::marker::Model;

/// For each variable the root of the class that it stands for, or nothing. Contracts see the list of these.
#[derive(Drop, Debug)]
pub struct Slots {
    roots: List<Option<NodeId>>,
}

impl Model for Slots {
    ghost use Rattle.std.specs.Prelude.{ℕ, List, Option};

    ghost Value = { List (Option ℕ) };

    ghost view = { λ a. a.roots };
}

impl Slots {
    /// The slots of this list.
    pub fn new(roots: List<Option<NodeId>>) -> Slots
        ensures { result ≡ roots }
    {
        Slots { roots }
    }

    /// The list of the slots.
    pub fn as_slice(&self) -> &[Option<NodeId>]
        ensures value { result.now ≡ self.now }
        ensures bound { length self.now < 2 ^ 32 }
    {
        self.roots.as_slice()
    }

    /// The same slots once more.
    pub fn copy(&self, alloc: Global) -> Result<Slots, Memory>
        ensures { IfOk result (λ slots. slots ≡ self.now) }
    {
        let mut roots = List::new(alloc);
        roots.extend(self.as_slice())?;
        Ok(Slots { roots })
    }
}

impl PartialEq for Slots {
    ghost eq = { pointwise (option_eq nat_eq) };

    ghost laws = { Prim.search (comparing, rules) };

    fn eq(&self, other: &Slots) -> bool {
        self.as_slice() == other.as_slice()
    }
}

impl Eq for Slots {
    ghost laws = { Prim.search (comparing, rules) };
}

impl Hash for Slots {
    ghost hash_input = { fed.slice (fed.option fed.u32) };

    ghost respects_eq = { slots_fed_alike };

    fn hash<H: Hasher>(&self, state: &mut H) {
        self.as_slice().hash(state);
    }
}
