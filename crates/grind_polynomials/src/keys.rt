//! Monomials as keys of a map.
ghost use Rattle.std.specs.Prelude.{Some, refl};
ghost use Rattle.std.specs.Cmp.{eq_by_cmp_equiv, on_total, partial_equiv_from_equiv, partial_order_from_agreeing_total};
ghost use Rattle.std.specs.Ordering.{is_eq};
ghost use Rattle.grind_polynomials.specs.Keys.{descending, descending_total};

use grind_monomials::{Place, compare};
use grind_outside::List;
use grind_term_graph::NodeId;
use std::cmp::Ordering;

// A monomial as a key: of two monomials the greater comes first.
#[derive(Drop)]
pub(crate) struct Key {
    pub(crate) monomial: List<NodeId>,
}

impl PartialEq for Key {
    ghost eq = { λ a b. is_eq (descending a.monomial b.monomial) };

    ghost laws = { partial_equiv_from_equiv (eq_by_cmp_equiv (on_total (λ a. a.monomial) descending_total)) };

    fn eq(&self, other: &Key) -> bool {
        self.cmp(other).is_eq()
    }
}

impl Eq for Key {
    ghost laws = { eq_by_cmp_equiv (on_total (λ a. a.monomial) descending_total) };
}

impl PartialOrd for Key {
    ghost partial_cmp = { λ a b. Some (descending a.monomial b.monomial) };

    ghost laws = { partial_order_from_agreeing_total (λ a b. descending a.monomial b.monomial) (on_total (λ a. a.monomial) descending_total) (λ a b. refl) (λ a b. refl) };

    fn partial_cmp(&self, other: &Key) -> Option<Ordering> {
        Some(self.cmp(other))
    }
}

impl Ord for Key {
    ghost cmp = { λ a b. descending a.monomial b.monomial };

    ghost total = { on_total (λ a. a.monomial) descending_total };

    ghost matches_partial_cmp = { λ a b. refl };

    ghost matches_eq = { λ a b. refl };

    fn cmp(&self, other: &Key) -> Ordering {
        match compare(other.monomial.as_slice(), self.monomial.as_slice()) {
            Place::Above => Ordering::Greater,
            Place::Same => Ordering::Equal,
            Place::Below => Ordering::Less,
        }
    }
}
