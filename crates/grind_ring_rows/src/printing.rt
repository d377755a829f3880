//! How answers are written.
use grind_claims::Rule;
use grind_outside::{List, Memory};
use grind_polynomials::{Poly, Term};
use grind_ring_solver::RingStep;
use std::alloc::Global;

/// Appends a text.
fn put(said: &mut List<u8>, text: &str) -> Result<(), Memory> {
    said.extend(text.as_bytes())?;
    Ok(())
}

/// Appends a space and a number.
fn put_number(alloc: Global, said: &mut List<u8>, number: i128) -> Result<(), Memory> {
    let text = format!(in alloc; " {number}")?;
    put(said, text.as_str())?;
    Ok(())
}

/// Appends a term.
fn put_term(alloc: Global, said: &mut List<u8>, term: &Term) -> Result<(), Memory> {
    put_number(alloc, said, term.coefficient)?;
    put(said, " [")?;
    for node in term.monomial.as_slice() {
        put_number(alloc, said, i128::from(node.number()))?;
    }
    put(said, " ]")?;
    Ok(())
}

/// Appends a polynomial.
fn put_poly(alloc: Global, said: &mut List<u8>, poly: &Poly) -> Result<(), Memory> {
    for term in poly.terms() {
        put_term(alloc, said, term)?;
    }
    if poly.terms().is_empty() {
        put(said, " 0")?;
    }
    Ok(())
}

/// Appends a rule, and the posts that a line by it rests on.
fn put_line(alloc: Global, said: &mut List<u8>, rule: &Rule, from: &[u32]) -> Result<(), Memory> {
    put_rule(alloc, said, rule)?;
    put(said, " from")?;
    for post in from {
        put_number(alloc, said, i128::from(*post))?;
    }
    Ok(())
}

/// Appends a rule: `ideal` with its divisor and its factors.
fn put_rule(alloc: Global, said: &mut List<u8>, rule: &Rule) -> Result<(), Memory> {
    match rule {
        Rule::Ideal { divisor, factors } => put_ideal(alloc, said, *divisor, factors.as_slice()),
        Rule::Equal => put(said, " by equal"),
        _ => put(said, " by another rule"),
    }
}

/// Appends the rule `ideal`.
fn put_ideal(
    alloc: Global,
    said: &mut List<u8>,
    divisor: i128,
    factors: &[Poly],
) -> Result<(), Memory> {
    put(said, " by ideal")?;
    put_number(alloc, said, divisor)?;
    for factor in factors {
        put(said, " times")?;
        put_poly(alloc, said, factor)?;
    }
    Ok(())
}

/// Appends a word and two posts.
fn put_posts(
    alloc: Global,
    said: &mut List<u8>,
    word: &str,
    first: u32,
    second: u32,
) -> Result<(), Memory> {
    put(said, word)?;
    put_number(alloc, said, i128::from(first))?;
    put_number(alloc, said, i128::from(second))?;
    Ok(())
}

/// Appends the claim that a polynomial is 0, with the number of its post.
pub fn put_zero(alloc: Global, said: &mut List<u8>, post: u32, poly: &Poly) -> Result<(), Memory> {
    put(said, "post")?;
    put_number(alloc, said, i128::from(post))?;
    put(said, ": zero")?;
    put_poly(alloc, said, poly)?;
    put(said, "\n")?;
    Ok(())
}

/// Appends the claim that two nodes are equal, with the number of its post.
pub fn put_same(
    alloc: Global,
    said: &mut List<u8>,
    post: u32,
    left: u32,
    right: u32,
) -> Result<(), Memory> {
    put(said, "post")?;
    put_number(alloc, said, i128::from(post))?;
    put_posts(alloc, said, ": same", left, right)?;
    put(said, "\n")?;
    Ok(())
}

/// Appends the posts of a basis as a line.
pub fn put_basis(alloc: Global, said: &mut List<u8>, posts: &[u32]) -> Result<(), Memory> {
    put(said, "basis")?;
    for post in posts {
        put_number(alloc, said, i128::from(*post))?;
    }
    put(said, "\n")?;
    Ok(())
}

/// Appends an answer as a line.
pub fn put_step(alloc: Global, said: &mut List<u8>, step: &RingStep) -> Result<(), Memory> {
    put_answer(alloc, said, step)?;
    put(said, "\n")?;
    Ok(())
}

/// Appends an answer.
fn put_answer(alloc: Global, said: &mut List<u8>, step: &RingStep) -> Result<(), Memory> {
    match step {
        RingStep::Zeroed { post } => put_word(alloc, said, "zeroed", *post),
        RingStep::Joins(post) => put_word(alloc, said, "joins", *post),
        RingStep::Conflict(post) => put_word(alloc, said, "conflict", *post),
        RingStep::Rest => put(said, "rest"),
        RingStep::AtLimit { first, second } => put_posts(alloc, said, "at limit", *first, *second),
        RingStep::Overflow { first, second } => put_posts(alloc, said, "overflow", *first, *second),
        RingStep::Added { rest, rule, from } => {
            put(said, "added")?;
            put_claim(alloc, said, rest, rule, from.as_slice())
        }
        RingStep::Equal {
            left,
            right,
            rest,
            rule,
            from,
        } => {
            put_posts(alloc, said, "equal", left.number(), right.number())?;
            put_claim(alloc, said, rest, rule, from.as_slice())
        }
    }
}

/// Appends a polynomial that is 0, and the line that says so.
fn put_claim(
    alloc: Global,
    said: &mut List<u8>,
    poly: &Poly,
    rule: &Rule,
    from: &[u32],
) -> Result<(), Memory> {
    put(said, " zero")?;
    put_poly(alloc, said, poly)?;
    put_line(alloc, said, rule, from)?;
    Ok(())
}

/// Appends a word and a post.
fn put_word(alloc: Global, said: &mut List<u8>, word: &str, post: u32) -> Result<(), Memory> {
    put(said, word)?;
    put_number(alloc, said, i128::from(post))?;
    Ok(())
}
