//! The drafts of a case.
ghost use Rattle.std.specs.Prelude.{◌≡◌, ◌+◌, [], ◌∷◌, ◌++◌, ℕ, All, length, IfOk, OnOk, MatchOption};
ghost use Rattle.grind_cutsat_facts.specs.Facts.{IsSaid, Stands};
ghost use Rattle.grind_cutsat_units.specs.Posts.{AreSaid, AreDrafts, IsCaseOf, AllStand, Rest};
ghost use Rattle.grind_cutsat_units.specs.Drafting.{facts_of, with_drafts, IsPut};

use crate::types::{Draft, Planned, View};
use grind_claims::Claim;
use grind_cutsat_facts::is_same_claim;
use grind_outside::{List, Memory};
use std::alloc::Global;

/// The drafts of the posts, without those whose claim stands; None where all of them do.
///
/// # Errors
///
/// `Memory` if out of memory.
pub fn drafted(alloc: Global, view: &View, posts: &[Planned]) -> Result<Option<List<Draft>>, Memory>
    requires { Rest view.now.facts.now [] posts.now }
    ensures { IfOk result (λ found. MatchOption found (AllStand view.now.facts.now posts.now)
        (λ drafts. IsCaseOf view.now.facts.now view.now.next posts.now drafts)) }
{
    let drafts = drafts_of(alloc, view, posts)?;
    if drafts.is_empty() {
        return Ok(None);
    }
    Ok(Some(drafts))
}

/// The drafts of the posts, without those whose claim stands.
fn drafts_of(alloc: Global, view: &View, posts: &[Planned]) -> Result<List<Draft>, Memory>
    requires { Rest view.now.facts.now [] posts.now }
    ensures { IfOk result (λ drafts. AreDrafts view.now.facts.now view.now.next posts.now drafts) }
{
    let mut drafts = List::new(alloc);
    let mut rest = posts;
    while let Some((it, tail)) = rest.split_first() {
        put(alloc, view, it, &mut drafts)?;
        rest = tail;
    }
    Ok(drafts)
}

/// Puts the draft of the post at the end, unless its claim stands.
fn put(alloc: Global, view: &View, it: &Planned, drafts: &mut List<Draft>) -> Result<(), Memory>
    requires { All (Stands (with_drafts view.now.facts.now view.now.next drafts.old)) it.now.premises }
    ensures { OnOk result (IsPut view.now.facts.now view.now.next it.now drafts.old drafts.new) }
{
    let found = number_of(view, drafts.as_slice(), &it.claim)?;
    if found.is_some() {
        return Ok(());
    }
    let from = numbers_of(alloc, view, drafts.as_slice(), it.premises.as_slice())?;
    let claim = it.claim.copy(alloc)?;
    let rule = it.rule.copy(alloc)?;
    drafts.push(Draft { claim, rule, from })?;
    Ok(())
}

/// The numbers of posts that say these claims: facts, or drafts.
fn numbers_of(
    alloc: Global,
    view: &View,
    drafts: &[Draft],
    claims: &[Claim],
) -> Result<List<u32>, Memory>
    requires { All (Stands (with_drafts view.now.facts.now view.now.next drafts.now)) claims.now }
    ensures { IfOk result (λ from. AreSaid (with_drafts view.now.facts.now view.now.next drafts.now) from claims.now) }
{
    let mut from = List::new(alloc);
    let mut rest = claims;
    while let Some((claim, tail)) = rest.split_first() {
        let number = standing(view, drafts, claim)?;
        from.push(number)?;
        rest = tail;
    }
    Ok(from)
}

/// The number of a post that says the claim, which stands.
fn standing(view: &View, drafts: &[Draft], claim: &Claim) -> Result<u32, Memory>
    requires { Stands (with_drafts view.now.facts.now view.now.next drafts.now) claim.now }
    ensures { IfOk result (λ post. IsSaid (with_drafts view.now.facts.now view.now.next drafts.now) post claim.now) }
{
    let found = number_of(view, drafts, claim)?;
    match found {
        Some(post) => Ok(post),
        None => Err(Memory),
    }
}

/// The number of a post that says the claim, if it stands: a fact, or a draft.
fn number_of(view: &View, drafts: &[Draft], claim: &Claim) -> Result<Option<u32>, Memory>
    ensures { IfOk result (λ found. MatchOption found
        (¬ Stands (with_drafts view.now.facts.now view.now.next drafts.now) claim.now)
        (λ post. IsSaid (with_drafts view.now.facts.now view.now.next drafts.now) post claim.now)) }
{
    if let Some(post) = view.facts.post_of(claim) {
        return Ok(Some(post));
    }
    let found = draft_saying(view.next, drafts, claim)?;
    Ok(found)
}

/// The number of a draft that says the claim, if one does. The first has the number `next`.
fn draft_saying(next: u32, drafts: &[Draft], claim: &Claim) -> Result<Option<u32>, Memory>
    ensures { IfOk result (λ found. MatchOption found
        ((post : ℕ) → ¬ IsSaid (facts_of next drafts.now) post claim.now)
        (λ post. IsSaid (facts_of next drafts.now) post claim.now)) }
{
    let mut number = next;
    let mut rest = drafts;
    while let Some((draft, tail)) = rest.split_first() {
        if is_same_claim(&draft.claim, claim) {
            return Ok(Some(number));
        }
        // No list has room for a post of a greater number.
        let Some(following) = number.checked_add(1) else {
            return Err(Memory);
        };
        number = following;
        rest = tail;
    }
    Ok(None)
}
