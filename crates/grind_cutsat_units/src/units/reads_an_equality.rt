//! Reading an equality of whole numbers.
ghost use Rattle.std.specs.Prelude.{◌≡◌, [], ◌∷◌, ℕ, pos, length, IfOk, IsTrue, ◌↔◌};
ghost use Rattle.grind_linear_forms.specs.Forms.{number_form};
ghost use Rattle.grind_cutsat_facts.specs.Facts.{Stands};
ghost use Rattle.grind_cutsat_assignment.specs.Given.{given};
ghost use Rattle.grind_cutsat_units.specs.Posts.{IsFound};
ghost use Rattle.grind_cutsat_units.specs.Equalities.{equality_posts, EqualityGives, ReadsEquality};

use crate::drafting::drafted;
use crate::posts::put_post;
use crate::types::{Draft, Planned, View};
use grind_claims::{Claim, Rule};
use grind_differences::difference;
use grind_linear_forms::Form;
use grind_outside::{List, Memory};
use grind_term_graph::NodeId;
use std::alloc::Global;

/// The drafts of an equality of whole numbers that gives anything new, by the rules `line` and `sym`.
///
/// # Errors
///
/// `Memory` if out of memory.
pub fn reads_an_equality(alloc: Global, view: &View) -> Result<Option<List<Draft>>, Memory>
    ensures { IfOk result (λ found. IsFound view.now.facts.now view.now.next (λ posts. (post : ℕ)
        × ReadsEquality (given view.now.facts.now view.now.terms.now.nodes view.now.classes.now.lists) post posts) found) }
{
    let mut rest = view.facts.as_slice();
    while let Some((fact, tail)) = rest.split_first() {
        let found = equality_at(alloc, view, &fact.claim)?;
        if let Some(drafts) = found {
            return Ok(Some(drafts));
        }
        rest = tail;
    }
    Ok(None)
}

/// What the claim gives, if it says that two whole numbers are equal.
fn equality_at(alloc: Global, view: &View, claim: &Claim) -> Result<Option<List<Draft>>, Memory>
    requires { Stands view.now.facts.now claim.now }
    ensures { IfOk result (λ found. IsFound view.now.facts.now view.now.next
        (EqualityGives view.now.terms.now.nodes claim.now) found) }
{
    let Claim::Same(a, b) = claim else {
        return Ok(None);
    };
    let one = difference(alloc, view.terms, *a, *b)?;
    let Some(one) = one else {
        return Ok(None);
    };
    let other = difference(alloc, view.terms, *b, *a)?;
    let Some(other) = other else {
        return Ok(None);
    };
    if is_zero(&one) {
        return Ok(None);
    }
    let posts = posts_of(alloc, *a, *b, one, other)?;
    let drafts = drafted(alloc, view, posts.as_slice())?;
    Ok(drafts)
}

/// Whether the form is 0.
fn is_zero(form: &Form) -> bool
    ensures { IsTrue result ↔ (form.now ≡ number_form (pos 0)) }
{
    form.parts().is_empty() && form.constant() == 0
}

/// The posts of an equality: its bound, the equality turned round, and the bound of that.
fn posts_of(
    alloc: Global,
    a: NodeId,
    b: NodeId,
    one: Form,
    other: Form,
) -> Result<List<Planned>, Memory>
    ensures { IfOk result (λ posts. posts ≡ equality_posts a b one other) }
{
    let mut posts = List::new(alloc);
    put_post(
        alloc,
        &mut posts,
        Claim::AtMost(one),
        Rule::Line,
        &Claim::Same(a, b),
    )?;
    put_post(
        alloc,
        &mut posts,
        Claim::Same(b, a),
        Rule::Sym,
        &Claim::Same(a, b),
    )?;
    put_post(
        alloc,
        &mut posts,
        Claim::AtMost(other),
        Rule::Line,
        &Claim::Same(b, a),
    )?;
    Ok(posts)
}
