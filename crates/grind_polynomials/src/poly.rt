//! A polynomial.
ghost use Rattle.std.specs.Prelude.{◌≡◌, ◌≢◌, ◌<◌, ◌^◌, [], pos, IfOk};
ghost use Rattle.grind_monomials.specs.Monomials.{IsMonomial};
ghost use Rattle.grind_polynomials.specs.Polynomials.{IsPoly, degree, lead_coefficient, lead_monomial};
ghost use Rattle.grind_polynomials.specs.Readings.{number_poly, node_poly};

use grind_outside::{List, Memory};
use grind_term_graph::NodeId;
use std::alloc::Global;
use std::marker::Model;

/// Why a polynomial was not made.
#[derive(Clone, Copy, Debug, PartialEq, Eq)]
pub enum PolyRefusal {
    /// A coefficient does not fit in 128 bits.
    Overflow,
    /// A product or a least common multiple has a degree over 16.
    Degree,
    /// Out of memory.
    Memory,
}

impl From<Memory> for PolyRefusal {
    ghost use Rattle.std.specs.Prelude.{◌≡◌};
    ghost use Rattle.grind_polynomials.specs.declared.poly.PolyRefusal.{PolyRefusal};

    ghost from_gives = { λ _ refusal. refusal ≡ PolyRefusal.Memory };

    fn from(_want: Memory) -> PolyRefusal {
        PolyRefusal::Memory
    }
}

/// A monomial with its coefficient.
#[derive(Drop, Debug, PartialEq, Eq)]
pub struct Term {
    /// How often the monomial is taken.
    pub coefficient: i128,
    /// The nodes that are multiplied.
    pub monomial: List<NodeId>,
}

impl Term {
    /// The same term once more.
    ///
    /// # Errors
    ///
    /// `Memory` where there is none.
    pub fn copy(&self, alloc: Global) -> Result<Term, Memory>
        ensures { IfOk result (λ term. term ≡ self.now) }
    {
        let mut monomial = List::new(alloc);
        monomial.extend(self.monomial.as_slice())?;
        Ok(Term {
            coefficient: self.coefficient,
            monomial,
        })
    }
}

/// A sum of monomials with coefficients. The nodes of each monomial do not fall, no coefficient is 0, and the monomials
/// fall strictly.
#[derive(Drop, Debug, PartialEq, Eq)]
pub struct Poly {
    /// The monomials with their coefficients.
    pub terms: List<Term>,
}

impl Model for Poly {
    ghost use Rattle.std.specs.Prelude.{List};
    ghost use Rattle.grind_polynomials.specs.declared.poly.Term.{Term};
    ghost use Rattle.grind_polynomials.specs.Polynomials.{IsPoly};

    ghost Value = { List Term };

    ghost view = { λ a. a.terms };

    ghost inverse = { λ terms. record { terms = terms } };

    ghost invariant = { λ a. IsPoly a.terms };
}

impl Poly {
    /// The monomials with their coefficients. Whoever asks for them learns what every polynomial keeps.
    pub fn terms(&self) -> &[Term]
        ensures value { result.now ≡ self.now }
        ensures keeps { IsPoly self.now }
    {
        self.terms.as_slice()
    }

    /// The degree: that of the first monomial, and 0 where there is none.
    pub fn degree(&self) -> usize
        ensures value { result ≡ degree self.now }
        ensures bound { degree self.now < 2 ^ 32 }
    {
        let Some((term, _)) = self.terms().split_first() else {
            return 0;
        };
        term.monomial.len()
    }

    /// The first coefficient, and 0 where there is no term.
    pub fn lead_coefficient(&self) -> i128
        ensures value { result ≡ lead_coefficient self.now }
        ensures nonzero { self.now ≢ [] → result ≢ pos 0 }
    {
        let Some((term, _)) = self.terms().split_first() else {
            return 0;
        };
        term.coefficient
    }

    /// The first monomial, which is the greatest, and 1 where there is no term.
    pub fn lead_monomial(&self) -> &[NodeId]
        ensures value { result.now ≡ lead_monomial self.now }
        ensures keeps { IsMonomial result.now }
    {
        let Some((term, _)) = self.terms().split_first() else {
            return &[];
        };
        term.monomial.as_slice()
    }

    /// The polynomial without terms.
    pub fn zero(alloc: Global) -> Poly
        ensures { result ≡ [] }
    {
        Poly {
            terms: List::new(alloc),
        }
    }

    /// The number as a polynomial.
    ///
    /// # Errors
    ///
    /// `Memory` where there is none.
    pub fn number(alloc: Global, number: i128) -> Result<Poly, Memory>
        ensures { IfOk result (λ poly. poly ≡ number_poly number) }
    {
        let mut terms = List::new(alloc);
        if number == 0 {
            return Ok(Poly { terms });
        }
        terms.push(Term {
            coefficient: number,
            monomial: List::new(alloc),
        })?;
        Ok(Poly { terms })
    }

    /// The node as a polynomial.
    ///
    /// # Errors
    ///
    /// `Memory` where there is none.
    pub fn node(alloc: Global, node: NodeId) -> Result<Poly, Memory>
        ensures { IfOk result (λ poly. poly ≡ node_poly node) }
    {
        let mut monomial = List::new(alloc);
        monomial.push(node)?;
        let mut terms = List::new(alloc);
        terms.push(Term {
            coefficient: 1,
            monomial,
        })?;
        Ok(Poly { terms })
    }

    /// The same polynomial once more.
    ///
    /// # Errors
    ///
    /// `Memory` where there is none.
    pub fn copy(&self, alloc: Global) -> Result<Poly, Memory>
        ensures { IfOk result (λ poly. poly ≡ self.now) }
    {
        let _terms = self.terms();
        let terms = copied(alloc, self.terms.as_slice())?;
        Ok(Poly { terms })
    }
}

// The same terms once more.
pub(crate) fn copied(alloc: Global, terms: &[Term]) -> Result<List<Term>, Memory>
    ensures { IfOk result (λ all. all ≡ terms.now) }
{
    let mut all = List::new(alloc);
    let mut rest = terms;
    while let Some((term, tail)) = rest.split_first() {
        all.push(term.copy(alloc)?)?;
        rest = tail;
    }
    Ok(all)
}
