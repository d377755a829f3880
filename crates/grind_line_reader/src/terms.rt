//! Numbers, linear forms and polynomials from the words by which reports spell them.
use grind_linear_forms::{Form, FormRefusal, add_scaled};
use grind_outside::Memory;
use grind_polynomials::{Poly, PolyRefusal, add_product};
use grind_term_graph::NodeId;
use std::alloc::Global;

/// The number that a word spells.
pub fn number_of(word: &str) -> Option<u32> {
    match word.parse::<u32>() {
        Ok(number) => Some(number),
        Err(_) => None,
    }
}

/// The whole number that a word spells, with its sign.
pub fn integer_of(word: &str) -> Option<i128> {
    match word.parse::<i128>() {
        Ok(number) => Some(number),
        Err(_) => None,
    }
}

/// The linear form that words spell: its constant, and each coefficient before its node.
pub fn form_in(alloc: Global, words: &[&str]) -> Result<Option<Form>, Memory> {
    let Some((constant, mut rest)) = words.split_first() else {
        return Ok(None);
    };
    let Some(constant) = integer_of(constant) else {
        return Ok(None);
    };
    let mut form = Form::number(alloc, constant);
    for _ in 0..words.len() {
        let Some((coefficient, behind)) = rest.split_first() else {
            break;
        };
        let Some((node, tail)) = behind.split_first() else {
            return Ok(None);
        };
        let Some(next) = with_part(alloc, &form, coefficient, node)? else {
            return Ok(None);
        };
        form = next;
        rest = tail;
    }
    Ok(Some(form))
}

/// The form with a node added so often.
fn with_part(
    alloc: Global,
    form: &Form,
    coefficient: &str,
    node: &str,
) -> Result<Option<Form>, Memory> {
    let (Some(coefficient), Some(node)) = (integer_of(coefficient), number_of(node)) else {
        return Ok(None);
    };
    let part = Form::node(alloc, NodeId::new(node))?;
    match add_scaled(alloc, form, 1, &part, coefficient) {
        Ok(next) => Ok(Some(next)),
        Err(FormRefusal::Overflow) => Ok(None),
        Err(FormRefusal::Memory) => Err(Memory),
    }
}

/// The polynomial that the first words spell: the number of its terms, and each term as its coefficient, its degree and its
/// nodes. After it the words that are left.
pub fn poly_in<'a, 'b>(
    alloc: Global,
    words: &'b [&'a str],
) -> Result<Option<(Poly, &'b [&'a str])>, Memory> {
    let Some((count, mut rest)) = words.split_first() else {
        return Ok(None);
    };
    let Some(count) = number_of(count) else {
        return Ok(None);
    };
    let mut poly = Poly::zero(alloc);
    for _ in 0..count {
        let Some((next, tail)) = with_term(alloc, &poly, rest)? else {
            return Ok(None);
        };
        poly = next;
        rest = tail;
    }
    Ok(Some((poly, rest)))
}

/// The polynomial with the term that the first words spell, and the words that are left.
fn with_term<'a, 'b>(
    alloc: Global,
    poly: &Poly,
    words: &'b [&'a str],
) -> Result<Option<(Poly, &'b [&'a str])>, Memory> {
    let [coefficient, degree, rest @ ..] = words else {
        return Ok(None);
    };
    let (Some(coefficient), Some(degree)) = (integer_of(coefficient), number_of(degree)) else {
        return Ok(None);
    };
    let degree = degree as usize;
    if degree > rest.len() {
        return Ok(None);
    }
    let (nodes, tail) = rest.split_at(degree);
    let Some(product) = product_in(alloc, coefficient, nodes)? else {
        return Ok(None);
    };
    let one = Poly::number(alloc, 1)?;
    let Some(sum) = added(alloc, poly, &one, &product)? else {
        return Ok(None);
    };
    Ok(Some((sum, tail)))
}

/// The number times the nodes that the words spell.
fn product_in(alloc: Global, number: i128, words: &[&str]) -> Result<Option<Poly>, Memory> {
    let zero = Poly::zero(alloc);
    let mut product = Poly::number(alloc, number)?;
    for word in words {
        let Some(node) = number_of(word) else {
            return Ok(None);
        };
        let node = Poly::node(alloc, NodeId::new(node))?;
        let Some(next) = added(alloc, &zero, &product, &node)? else {
            return Ok(None);
        };
        product = next;
    }
    Ok(Some(product))
}

/// The first polynomial and the product of the other two, where it is defined.
fn added(alloc: Global, a: &Poly, q: &Poly, b: &Poly) -> Result<Option<Poly>, Memory> {
    match add_product(alloc, a, q, b) {
        Ok(sum) => Ok(Some(sum)),
        Err(PolyRefusal::Memory) => Err(Memory),
        Err(_) => Ok(None),
    }
}
