//! The rule `table`: what the truth tables of the connectives give, whatever truths the free nodes have.
ghost use Rattle.std.specs.Prelude.{IsTrue, ◌↔◌, ◌<◌, ◌+◌, ◌≡◌, ◌≢◌, ℕ, Bool, true, [], ◌∷◌, ◌++◌, All, length, Some, IsSome, IfOk, slice_index_or};
ghost use Rattle.std.specs.List.{AllPairs};
ghost use Rattle.grind_term_graph.specs.Terms.{prop, sort_at};
ghost use Rattle.grind_truth_tables.specs.Assignments.{HoldsBehind};
ghost use Rattle.grind_truth_tables.specs.Needed.{CoversNamed, IsSelfContained, told};
ghost use Rattle.grind_claims.specs.Claims.{IsFormed, claims_of};
ghost use Rattle.grind_truth_tables.specs.Tables.{truth_of, literal_truth, Follows, IsTableRule};

use crate::needed::needed;
use crate::truths::{Truths, conclusion_truth, literal_truth, truths_of};
use grind_claims::Claim;
use grind_claims::claim::is_formula;
use grind_outside::{List, Memory};
use grind_term_graph::{NodeId, TermTable};
use std::alloc::Global;

/// Whether the rule `table` allows the claim, which is well formed, from these free nodes.
///
/// # Errors
/// `Memory` if out of memory.
pub fn is_table(
    alloc: Global,
    terms: &TermTable,
    free: &[NodeId],
    premises: &[&Claim],
    claim: &Claim,
) -> Result<bool, Memory>
    requires formed { IsFormed terms.now.nodes claim.now }
    ensures { IfOk result (λ yes. IsTrue yes ↔ IsTableRule terms.now.nodes free.now (claims_of premises.now) claim.now) }
{
    if free.len() > 6 || !are_different(free) || !are_formulas(terms, free) {
        return Ok(false);
    }
    let order = needed(alloc, terms, free, premises, claim)?;
    let question = Question {
        terms,
        free,
        premises,
        claim,
        order: order.as_slice(),
    };
    let always = follows_always(alloc, &question, &[], free.len())?;
    Ok(always)
}

/// What the rule is asked: whether the claim follows from the premises, whatever truths the free nodes have.
#[derive(Drop)]
struct Question<'a> {
    terms: &'a TermTable,
    free: &'a [NodeId],
    premises: &'a [&'a Claim],
    claim: &'a Claim,
    /// The nodes on whose truths those of the claims rest.
    order: &'a [NodeId],
}

/// Whether no node stands in the list twice.
fn are_different(nodes: &[NodeId]) -> bool
    ensures { IsTrue result ↔ AllPairs (λ a b. a ≢ b) nodes.now }
{
    for j in 0..nodes.len() {
        if !is_first_there(nodes, j) {
            return false;
        }
    }
    true
}

/// Whether the node at that place does not stand before it.
fn is_first_there(nodes: &[NodeId], j: usize) -> bool
    requires { j < length nodes.now }
    ensures { IsTrue result ↔ ((i d : ℕ) → i < j → slice_index_or nodes.now i d ≢ slice_index_or nodes.now j d) }
{
    for i in 0..j {
        if nodes[i] == nodes[j] {
            return false;
        }
    }
    true
}

/// Whether each node is a formula.
fn are_formulas(terms: &TermTable, nodes: &[NodeId]) -> bool
    ensures { IsTrue result ↔ All (λ n. sort_at terms.now.nodes n ≡ Some prop) nodes.now }
{
    nodes.iter().all(|node| is_formula(terms, *node))
}

/// Whether the claim follows under each assignment that begins with the chosen truths and has so many more.
fn follows_always(
    alloc: Global,
    question: &Question,
    chosen: &[bool],
    more: usize,
) -> Result<bool, Memory>
    requires count { length chosen.now + more ≡ length question.now.free.now }
    requires contained { IsSelfContained question.now.terms.now.nodes question.now.free.now question.now.order.now }
    requires named { CoversNamed (question.now.claim.now ∷ claims_of question.now.premises.now) question.now.order.now }
    ensures { IfOk result (λ yes. IsTrue yes ↔ HoldsBehind
        (λ truths. Follows (truth_of question.now.terms.now.nodes question.now.free.now truths)
        (claims_of question.now.premises.now) question.now.claim.now)
        chosen.now more) }
{
    if more == 0 {
        let follows = follows_under(alloc, question, chosen)?;
        return Ok(follows);
    }
    let with_true = with_one_more(alloc, chosen, true)?;
    let if_true = follows_always(alloc, question, with_true.as_slice(), more - 1)?;
    if !if_true {
        return Ok(false);
    }
    let with_false = with_one_more(alloc, chosen, false)?;
    let if_false = follows_always(alloc, question, with_false.as_slice(), more - 1)?;
    Ok(if_false)
}

/// The truths, and one more after them.
fn with_one_more(alloc: Global, truths: &[bool], truth: bool) -> Result<List<bool>, Memory>
    ensures { IfOk result (λ longer. longer ≡ truths.now ++ truth ∷ []) }
{
    let mut longer = List::new(alloc);
    longer.extend(truths)?;
    longer.push(truth)?;
    Ok(longer)
}

/// Whether the claim follows under that assignment.
fn follows_under(alloc: Global, question: &Question, chosen: &[bool]) -> Result<bool, Memory>
    requires count { length chosen.now ≡ length question.now.free.now }
    requires contained { IsSelfContained question.now.terms.now.nodes question.now.free.now question.now.order.now }
    requires named { CoversNamed (question.now.claim.now ∷ claims_of question.now.premises.now) question.now.order.now }
    ensures { IfOk result (λ yes. IsTrue yes ↔
        Follows (truth_of question.now.terms.now.nodes question.now.free.now chosen.now)
        (claims_of question.now.premises.now) question.now.claim.now) }
{
    let known = truths_of(alloc, question.terms, question.free, chosen, question.order)?;
    let follows = follows(&known, question.premises, question.claim);
    Ok(follows)
}

/// Whether the premises and the claim have truths, and the claim is true where all premises are.
fn follows(known: &Truths, premises: &[&Claim], claim: &Claim) -> bool
    ensures { IsTrue result ↔ Follows (told known.now) (claims_of premises.now) claim.now }
{
    let Some(concluded) = conclusion_truth(known, claim) else {
        return false;
    };
    if !are_expressed(known, premises) {
        return false;
    }
    concluded || !all_hold(known, premises)
}

/// Whether each premise has a truth.
fn are_expressed(known: &Truths, premises: &[&Claim]) -> bool
    ensures { IsTrue result ↔ All (λ premise. IsSome (literal_truth (told known.now) premise.now)) premises.now }
{
    premises
        .iter()
        .all(|premise| literal_truth(known, premise).is_some())
}

/// Whether each premise is true.
fn all_hold(known: &Truths, premises: &[&Claim]) -> bool
    ensures { IsTrue result ↔ All (λ premise. literal_truth (told known.now) premise.now ≡ Some true) premises.now }
{
    premises
        .iter()
        .all(|premise| literal_truth(known, premise) == Some(true))
}
