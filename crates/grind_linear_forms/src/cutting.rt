//! A linear form divided by a number.
ghost use Rattle.std.specs.Prelude.{◌≡◌, ◌<ℤ◌, pos, IfOk, IfErr, IsTrue, ◌↔◌};
ghost use Rattle.grind_linear_forms.specs.Cuts.{DividesAll, IsCut, times};

use crate::form::{Form, FormRefusal, Part};
use crate::numbers::{is_multiple, quotient, rounded_up};
use grind_outside::{List, Memory};
use std::alloc::Global;

/// The form with its coefficients divided by `g` and its constant divided by `g`, rounded up. It is never refused for an
/// overflow.
pub fn cut(alloc: Global, a: &Form, g: i128) -> Result<Form, FormRefusal>
    requires positive { pos 0 <ℤ g }
    requires divides { DividesAll g a.now.parts }
    ensures ok { IfOk result (λ form. IsCut a.now g form) }
    ensures err { IfErr result (λ refusal. refusal ≡ FormRefusal.Memory) }
{
    let parts = divided(alloc, a.parts(), g)?;
    let constant = rounded_up(a.constant, g);
    Ok(Form { parts, constant })
}

/// Whether a positive number divides each coefficient.
pub fn divides(g: i128, a: &Form) -> bool
    requires { pos 0 <ℤ g }
    ensures { IsTrue result ↔ DividesAll g a.now.parts }
{
    divides_parts(g, a.parts())
}

// Whether a positive number divides the coefficients of these parts.
fn divides_parts(g: i128, parts: &[Part]) -> bool
    requires { pos 0 <ℤ g }
    ensures { IsTrue result ↔ DividesAll g parts.now }
{
    let mut rest = parts;
    while let Some((part, tail)) = rest.split_first() {
        if !is_multiple(part.coefficient, g) {
            return false;
        }
        rest = tail;
    }
    true
}

// The parts with each coefficient divided by a number that divides them all.
fn divided(alloc: Global, parts: &[Part], g: i128) -> Result<List<Part>, Memory>
    requires positive { pos 0 <ℤ g }
    requires divides { DividesAll g parts.now }
    ensures { IfOk result (λ quotients. parts.now ≡ times g quotients) }
{
    let mut quotients = List::new(alloc);
    let mut rest = parts;
    while let Some((part, tail)) = rest.split_first() {
        let coefficient = quotient(part.coefficient, g);
        quotients.push(Part {
            coefficient,
            node: part.node,
        })?;
        rest = tail;
    }
    Ok(quotients)
}
