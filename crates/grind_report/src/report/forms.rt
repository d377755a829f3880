//! The words of linear forms and polynomials, and of factors with their premises.
ghost use Rattle.std.specs.Prelude.{◌≡◌, ◌++◌, length, flat_map, All, OnOk};
ghost use Rattle.grind_report.specs.Report.{spaced, part_words, form_words, monomial_words, poly_words, paired, factor_first, factor_behind, IsShort, IsWide, PartFits, FormFits, MonomialFits, PolyFits};

use crate::report::words;
use grind_linear_forms::{Form, Part};
use grind_outside::{List, Memory};
use grind_polynomials::{Poly, Term};

/// A node after its coefficient.
fn put_part(out: &mut List<u8>, part: &Part) -> Result<(), Memory>
    ensures text { OnOk result (out.new ≡ out.old ++ spaced (part_words part.now)) }
    ensures fits { OnOk result (PartFits part.now) }
{
    words::put_integer(out, part.coefficient)?;
    words::put_number(out, part.node.number())?;
    Ok(())
}

/// Nodes, each after its coefficient.
fn put_parts(out: &mut List<u8>, parts: &[Part]) -> Result<(), Memory>
    ensures text { OnOk result (out.new ≡ out.old ++ spaced (flat_map part_words parts.now)) }
    ensures fits { OnOk result (All PartFits parts.now) }
{
    let mut rest = parts;
    while let Some((part, tail)) = rest.split_first() {
        put_part(out, part)?;
        rest = tail;
    }
    Ok(())
}

/// A linear form: its constant, and then its nodes with their coefficients.
pub fn put_form(out: &mut List<u8>, form: &Form) -> Result<(), Memory>
    ensures text { OnOk result (out.new ≡ out.old ++ spaced (form_words form.now)) }
    ensures fits { OnOk result (FormFits form.now) }
{
    let parts = form.parts();
    words::put_integer(out, form.constant())?;
    put_parts(out, parts)?;
    Ok(())
}

/// A monomial after its coefficient and its degree.
fn put_monomial(out: &mut List<u8>, term: &Term) -> Result<(), Memory>
    ensures text { OnOk result (out.new ≡ out.old ++ spaced (monomial_words term.now)) }
    ensures fits { OnOk result (MonomialFits term.now) }
{
    words::put_integer(out, term.coefficient)?;
    words::put_number(out, term.monomial.len() as u32)?;
    words::put_nodes(out, term.monomial.as_slice())?;
    Ok(())
}

/// Monomials, each after its coefficient and its degree.
fn put_monomials(out: &mut List<u8>, terms: &[Term]) -> Result<(), Memory>
    ensures text { OnOk result (out.new ≡ out.old ++ spaced (flat_map monomial_words terms.now)) }
    ensures fits { OnOk result (All MonomialFits terms.now) }
{
    let mut rest = terms;
    while let Some((term, tail)) = rest.split_first() {
        put_monomial(out, term)?;
        rest = tail;
    }
    Ok(())
}

/// A polynomial: how many monomials it has, and then these with their coefficients.
pub fn put_poly(out: &mut List<u8>, poly: &Poly) -> Result<(), Memory>
    ensures text { OnOk result (out.new ≡ out.old ++ spaced (poly_words poly.now)) }
    ensures fits { OnOk result (PolyFits poly.now) }
{
    let terms = poly.terms();
    words::put_number(out, poly.terms.len() as u32)?;
    put_monomials(out, terms)?;
    Ok(())
}

/// Premises, each after its factor.
pub fn put_factors(out: &mut List<u8>, factors: &[i128], premises: &[u32]) -> Result<(), Memory>
    requires { length premises.now ≡ length factors.now }
    ensures text { OnOk result (out.new ≡ out.old ++ spaced (paired factor_first factors.now premises.now)) }
    ensures fits { OnOk result (All IsWide factors.now) }
{
    let mut rest = premises;
    let mut others = factors;
    while let Some((premise, tail)) = rest.split_first() {
        let Some((factor, left)) = others.split_first() else {
            return Ok(());
        };
        words::put_integer(out, *factor)?;
        words::put_number(out, *premise)?;
        rest = tail;
        others = left;
    }
    Ok(())
}

/// Premises, each before its factor.
pub fn put_poly_factors(
    out: &mut List<u8>,
    factors: &[Poly],
    premises: &[u32],
) -> Result<(), Memory>
    requires { length premises.now ≡ length factors.now }
    ensures text { OnOk result (out.new ≡ out.old ++ spaced (paired factor_behind factors.now premises.now)) }
    ensures fits { OnOk result (All PolyFits factors.now) }
{
    let mut rest = premises;
    let mut others = factors;
    while let Some((line, tail)) = rest.split_first() {
        let Some((factor, left)) = others.split_first() else {
            return Ok(());
        };
        words::put_number(out, *line)?;
        put_poly(out, factor)?;
        rest = tail;
        others = left;
    }
    Ok(())
}
