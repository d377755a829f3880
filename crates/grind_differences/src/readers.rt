//! Readings of many whole numbers of one table, made in one pass and held for who asks for pairs of them.
ghost use Rattle.std.specs.Prelude.{◌≡◌, All, Contains, Some, None, IfOk, MatchOption};
ghost use Rattle.grind_term_graph.specs.Terms.{int, sort_at};
ghost use Rattle.grind_differences.specs.Differences.{reading, difference, poly_reading, poly_difference};
ghost use Rattle.grind_differences.specs.Held.{HoldsForms, HoldsPolys};

use crate::differences::{less, less_poly};
use grind_linear_forms::{Form, linear_of_all};
use grind_outside::{List, Memory};
use grind_polynomials::{Poly, poly_of_all};
use grind_reach::held;
use grind_term_graph::{NodeId, TermTable};
use std::alloc::Global;

/// The readings of some whole numbers of a table as linear forms.
#[derive(Drop)]
pub struct FormReader<'a> {
    /// The table.
    pub terms: &'a TermTable,
    /// The whole numbers that were read.
    pub ids: &'a [NodeId],
    /// At the number of each its reading, where it is defined.
    pub forms: List<Option<Form>>,
}

impl<'a> FormReader<'a> {
    /// Reads the whole numbers, in one pass over the table.
    ///
    /// # Errors
    /// `Memory` if out of memory.
    pub fn new(
        alloc: Global,
        terms: &'a TermTable,
        ids: &'a [NodeId],
    ) -> Result<FormReader<'a>, Memory>
        requires { All (λ id. sort_at terms.now.nodes id ≡ Some int) ids.now }
        ensures terms { IfOk result (λ reader. reader.terms.now ≡ terms.now) }
        ensures ids { IfOk result (λ reader. reader.ids.now ≡ ids.now) }
        ensures holds { IfOk result (λ reader. HoldsForms reader.terms.now.nodes reader.ids.now reader.forms) }
    {
        let forms = linear_of_all(alloc, terms, ids)?;
        Ok(FormReader { terms, ids, forms })
    }

    /// The reading of one of them, where it is defined.
    pub fn reading(&self, id: NodeId) -> Option<&Form>
        requires holds { HoldsForms self.now.terms.now.nodes self.now.ids.now self.now.forms }
        requires among { Contains self.now.ids.now id }
        ensures { MatchOption result (reading self.now.terms.now.nodes id ≡ None) (λ form. reading self.now.terms.now.nodes id ≡ Some form.now) }
    {
        held(&self.forms, id)
    }

    /// The reading of the first less that of the second, where it is defined. Nothing is read again.
    ///
    /// # Errors
    /// `Memory` if out of memory.
    pub fn difference(&self, alloc: Global, a: NodeId, b: NodeId) -> Result<Option<Form>, Memory>
        requires holds { HoldsForms self.now.terms.now.nodes self.now.ids.now self.now.forms }
        requires first { Contains self.now.ids.now a }
        requires second { Contains self.now.ids.now b }
        ensures { IfOk result (λ found. found ≡ difference self.now.terms.now.nodes a b) }
    {
        let Some(left) = self.reading(a) else {
            return Ok(None);
        };
        let Some(right) = self.reading(b) else {
            return Ok(None);
        };
        let found = less(alloc, left, right)?;
        Ok(found)
    }
}

/// The readings of some whole numbers of a table as polynomials.
#[derive(Drop)]
pub struct PolyReader<'a> {
    /// The table.
    pub terms: &'a TermTable,
    /// The whole numbers that were read.
    pub ids: &'a [NodeId],
    /// At the number of each its reading, where it is defined.
    pub polys: List<Option<Poly>>,
}

impl<'a> PolyReader<'a> {
    /// Reads the whole numbers, in one pass over the table.
    ///
    /// # Errors
    /// `Memory` if out of memory.
    pub fn new(
        alloc: Global,
        terms: &'a TermTable,
        ids: &'a [NodeId],
    ) -> Result<PolyReader<'a>, Memory>
        requires { All (λ id. sort_at terms.now.nodes id ≡ Some int) ids.now }
        ensures terms { IfOk result (λ reader. reader.terms.now ≡ terms.now) }
        ensures ids { IfOk result (λ reader. reader.ids.now ≡ ids.now) }
        ensures holds { IfOk result (λ reader. HoldsPolys reader.terms.now.nodes reader.ids.now reader.polys) }
    {
        let polys = poly_of_all(alloc, terms, ids)?;
        Ok(PolyReader { terms, ids, polys })
    }

    /// The reading of one of them, where it is defined.
    pub fn reading(&self, id: NodeId) -> Option<&Poly>
        requires holds { HoldsPolys self.now.terms.now.nodes self.now.ids.now self.now.polys }
        requires among { Contains self.now.ids.now id }
        ensures { MatchOption result (poly_reading self.now.terms.now.nodes id ≡ None) (λ poly. poly_reading self.now.terms.now.nodes id ≡ Some poly.now) }
    {
        held(&self.polys, id)
    }

    /// The reading of the first less that of the second, where it is defined. Nothing is read again.
    ///
    /// # Errors
    /// `Memory` if out of memory.
    pub fn difference(&self, alloc: Global, a: NodeId, b: NodeId) -> Result<Option<Poly>, Memory>
        requires holds { HoldsPolys self.now.terms.now.nodes self.now.ids.now self.now.polys }
        requires first { Contains self.now.ids.now a }
        requires second { Contains self.now.ids.now b }
        ensures { IfOk result (λ found. found ≡ poly_difference self.now.terms.now.nodes a b) }
    {
        let Some(left) = self.reading(a) else {
            return Ok(None);
        };
        let Some(right) = self.reading(b) else {
            return Ok(None);
        };
        let found = less_poly(alloc, left, right)?;
        Ok(found)
    }
}
