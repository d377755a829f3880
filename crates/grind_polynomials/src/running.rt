//! A running sum: a map from monomials to their coefficients, to which multiples of monomials are added.
ghost use Rattle.std.specs.Prelude.{◌≡◌, Ok, Err, IfOk, OnOk, IsErrOf};
ghost use Rattle.std.specs.BTreeMap.{IsOrdered};
ghost use Rattle.grind_polynomials.specs.declared.poly.PolyRefusal.TheVariants.{Overflow, Degree};
ghost use Rattle.grind_polynomials.specs.Polynomials.{IsPoly};
ghost use Rattle.grind_polynomials.specs.Running.{key_order, terms_of, coefficient_of_key, with_coefficient};
ghost use Rattle.grind_polynomials.specs.Sums.{with_more};

use crate::keys::Key;
use crate::numbers::sum_of;
use crate::poly::{PolyRefusal, Term};
use grind_outside::{List, Memory};
use grind_term_graph::NodeId;
use std::alloc::Global;
use std::collections::BTreeMap;

// The coefficients of a sum by their monomials, the greatest monomial first.
pub(crate) type Running = BTreeMap<Key, i128>;

// The sum of the terms of a polynomial.
pub(crate) fn started(alloc: Global, terms: &[Term]) -> Result<Running, Memory>
    requires { IsPoly terms.now }
    ensures { IfOk result (λ sum. terms_of sum ≡ terms.now) }
{
    let mut sum = BTreeMap::new(alloc);
    let mut rest = terms;
    while let Some((x, tail)) = rest.split_first() {
        let term = x.copy(alloc)?;
        let key = Key {
            monomial: term.monomial,
        };
        sum.insert(key, term.coefficient)?;
        rest = tail;
    }
    Ok(sum)
}

// Takes the monomial so often more.
pub(crate) fn add(
    sum: &mut Running,
    number: i128,
    monomial: List<NodeId>,
) -> Result<(), PolyRefusal>
    ensures ok { OnOk result (with_more number monomial (terms_of sum.old) ≡ Ok (terms_of sum.new)) }
    ensures overflow { IsErrOf result PolyRefusal.Overflow → with_more number monomial (terms_of sum.old) ≡ Err Overflow }
    ensures degree { IsErrOf result PolyRefusal.Degree → ⊥ }
{
    let key = Key { monomial };
    let before = coefficient_of_key(sum, &key);
    let Some(coefficient) = sum_of(false, before, number) else {
        return Err(PolyRefusal::Overflow);
    };
    put(sum, key, coefficient)?;
    Ok(())
}

// The coefficient at the key, and 0 where there is none.
fn coefficient_of_key(sum: &Running, key: &Key) -> i128
    ensures value { result ≡ coefficient_of_key key.now sum.now.entries }
    ensures ordered { IsOrdered key_order sum.now }
{
    let _len = sum.len();
    sum.get(key).copied().unwrap_or(0)
}

// Puts the coefficient at the key; one of 0 is left out.
fn put(sum: &mut Running, key: Key, coefficient: i128) -> Result<(), Memory>
    ensures { OnOk result (sum.new.entries ≡ with_coefficient coefficient key sum.old.entries) }
{
    if coefficient == 0 {
        sum.remove(&key);
        return Ok(());
    }
    sum.insert(key, coefficient)?;
    Ok(())
}

// The terms of the sum.
pub(crate) fn written(alloc: Global, sum: Running) -> Result<List<Term>, Memory>
    ensures { IfOk result (λ all. all ≡ terms_of sum) }
{
    let mut all = List::new(alloc);
    let mut rest = sum;
    while let Some((key, coefficient)) = rest.pop_first() {
        all.push(Term {
            coefficient,
            monomial: key.monomial,
        })?;
    }
    Ok(all)
}
