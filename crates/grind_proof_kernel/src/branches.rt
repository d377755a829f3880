//! Branches: what they assume, which lines they may use, and which of them are as their places ask.
ghost use Rattle.std.specs.Prelude.{IsTrue, ◌↔◌, ◌<◌, ◌≤◌, ◌+◌, ◌≡◌, ℕ, length, All, slice_get, IfOk, MatchOption};
ghost use Rattle.std.specs.Option.{IsSomeAnd, option_copied};
ghost use Rattle.grind_claims.specs.declared.proof.Branch.{Branch as BranchData};
ghost use Rattle.grind_proof_kernel.specs.Typing.{branch_at, parent_of, literal_of, begin_of, Reaches, Serves, IsPairOf, IsParent, StandsBefore, StandsBehind, IsClosed, IsWhole, IsFirst, IsSecond, IsInPair, IsGoodBranch};
ghost use Rattle.grind_proof_kernel.specs.Judgement.{HasGoodBranches, IsFirstBadBranch};
ghost use Rattle.grind_proof_kernel.specs.Layouts.{IsLayout};

use crate::layout::{Layout, first_pair_of, layout_of, span_of};
use crate::literals::{are_opposite, is_literal};
use grind_claims::claim::is_formed;
use grind_claims::{Branch, Claim, Line, Proof};
use grind_outside::Memory;
use std::alloc::Global;

/// The branch of that number, where it is listed. The root, number 0, is not.
fn branch_at(branches: &[Branch], branch: u32) -> Option<&Branch>
    ensures { option_copied result ≡ branch_at branches.now branch }
{
    if branch == 0 {
        return None;
    }
    branches.get((branch - 1) as usize)
}

/// The parent of a branch. The root has none.
fn parent_of(branches: &[Branch], branch: u32) -> Option<u32>
    ensures { result ≡ parent_of branches.now branch }
{
    match branch_at(branches, branch) {
        Some(it) => Some(it.parent),
        None => None,
    }
}

/// What a branch assumes besides its parent. The root assumes nothing.
pub fn literal_of(branches: &[Branch], branch: u32) -> Option<&Claim>
    ensures { option_copied result ≡ literal_of branches.now branch }
{
    match branch_at(branches, branch) {
        Some(it) => Some(&it.literal),
        None => None,
    }
}

/// The line at which the lines of a branch may begin.
fn begin_of(branches: &[Branch], branch: u32) -> Option<u32>
    ensures { result ≡ begin_of branches.now branch }
{
    if branch == 0 {
        return Some(0);
    }
    match branches.get((branch - 1) as usize) {
        Some(it) => Some(it.after),
        None => None,
    }
}

/// Whether the first branch is the second or an ancestor of it.
pub fn reaches(branches: &[Branch], above: u32, branch: u32) -> bool
    ensures { IsTrue result ↔ Reaches branches.now above branch }
{
    let mut at = branch;
    for _step in 0..branches.len() {
        if at == above {
            return true;
        }
        let Some(parent) = parent_of(branches, at) else {
            return false;
        };
        at = parent;
    }
    at == above
}

/// Whether line `i` of the branch may use this line: it stands before, in this branch or an ancestor of it.
fn serves(branches: &[Branch], lines: &[Line], i: u32, branch: u32, premise: u32) -> bool
    requires { i ≤ length lines.now }
    ensures { IsTrue result ↔ Serves branches.now lines.now i branch premise }
{
    premise < i && reaches(branches, lines[premise as usize].branch, branch)
}

/// Whether line `i` of the branch may use each of these lines.
pub fn all_serve(branches: &[Branch], lines: &[Line], i: u32, branch: u32, premises: &[u32]) -> bool
    requires { i ≤ length lines.now }
    ensures { IsTrue result ↔ All (Serves branches.now lines.now i branch) premises.now }
{
    premises
        .iter()
        .all(|premise| serves(branches, lines, i, branch, *premise))
}

/// The first bad branch, where there is one.
///
/// # Errors
/// `Memory` if out of memory.
pub fn first_bad_branch(alloc: Global, proof: &Proof) -> Result<Option<u32>, Memory>
    ensures { IfOk result (λ found. MatchOption found (HasGoodBranches proof.now) (λ first. IsFirstBadBranch proof.now first)) }
{
    let layout = layout_of(alloc, proof)?;
    let found = first_bad(proof, &layout);
    Ok(found)
}

/// The first bad branch, where there is one, from the layout of the proof.
fn first_bad(proof: &Proof, layout: &Layout) -> Option<u32>
    requires layout { IsLayout proof.now layout.now }
    ensures { MatchOption result (HasGoodBranches proof.now) (λ first. IsFirstBadBranch proof.now first) }
{
    for branch in 0..proof.branches.len() + 1 {
        if !is_good_branch(proof, layout, branch as u32) {
            return Some(branch as u32);
        }
    }
    None
}

/// Whether the branch is not bad.
fn is_good_branch(proof: &Proof, layout: &Layout, branch: u32) -> bool
    requires layout { IsLayout proof.now layout.now }
    requires stands { branch ≤ length proof.now.branches }
    ensures { IsTrue result ↔ IsGoodBranch proof.now branch }
{
    if branch == 0 {
        return is_whole(proof, layout, 0, 0);
    }
    let Some(it) = branch_at(proof.branches.as_slice(), branch) else {
        return false;
    };
    is_in_pair(proof, layout, branch, it) && is_whole(proof, layout, branch, it.after)
}

/// Whether the lines of the branch stand at that line or after it, and the branch is the parent of a pair or closed.
fn is_whole(proof: &Proof, layout: &Layout, branch: u32, after: u32) -> bool
    requires layout { IsLayout proof.now layout.now }
    requires stands { branch ≤ length proof.now.branches }
    ensures { IsTrue result ↔ IsWhole proof.now.branches proof.now.lines branch after }
{
    stands_behind(proof, layout, branch, after)
        && (is_parent(proof, layout, branch) || is_closed(proof, layout, branch))
}

/// Whether each line of the branch stands at that line or after it.
fn stands_behind(proof: &Proof, layout: &Layout, branch: u32, after: u32) -> bool
    requires layout { IsLayout proof.now layout.now }
    requires stands { branch ≤ length proof.now.branches }
    ensures { IsTrue result ↔ StandsBehind proof.now.lines branch after }
{
    let span = span_of(proof, layout, branch);
    after <= span.begin
}

/// Whether each line of the branch stands before that line.
fn stands_before(proof: &Proof, layout: &Layout, branch: u32, after: u32) -> bool
    requires layout { IsLayout proof.now layout.now }
    requires stands { branch ≤ length proof.now.branches }
    ensures { IsTrue result ↔ StandsBefore proof.now.lines branch after }
{
    let span = span_of(proof, layout, branch);
    span.end <= after
}

/// Whether the last line of the branch claims a contradiction.
fn is_closed(proof: &Proof, layout: &Layout, branch: u32) -> bool
    requires layout { IsLayout proof.now layout.now }
    requires stands { branch ≤ length proof.now.branches }
    ensures { IsTrue result ↔ IsClosed proof.now.lines branch }
{
    let span = span_of(proof, layout, branch);
    span.closed
}

/// Whether the branch is the parent of a pair.
fn is_parent(proof: &Proof, layout: &Layout, branch: u32) -> bool
    requires layout { IsLayout proof.now layout.now }
    requires stands { branch ≤ length proof.now.branches }
    ensures { IsTrue result ↔ IsParent proof.now.branches branch }
{
    has_pair(proof, layout, proof.branches.len(), branch)
}

/// Whether one of the first pairs, so many of them, has this parent.
fn has_pair(proof: &Proof, layout: &Layout, pairs: usize, parent: u32) -> bool
    requires layout { IsLayout proof.now layout.now }
    requires stands { parent ≤ length proof.now.branches }
    requires few { pairs ≤ 4294967295 }
    ensures { IsTrue result ↔ ((k : ℕ) × (k < pairs) × IsPairOf proof.now.branches k parent) }
{
    let first = first_pair_of(proof, layout, parent) as usize;
    first < pairs
}

/// Whether a listed branch is as its place in its pair asks.
fn is_in_pair(proof: &Proof, layout: &Layout, branch: u32, it: &Branch) -> bool
    requires layout { IsLayout proof.now layout.now }
    requires listed { 0 < branch }
    ensures { IsTrue result ↔ ((k : ℕ) × IsInPair proof.now.terms.nodes proof.now.branches proof.now.lines k branch it.now) }
{
    let pair = (branch - 1) / 2;
    if branch == pair + pair + 1 {
        return is_first(proof, layout, pair, it);
    }
    follows_first(proof.branches.as_slice(), branch - 1, it)
}

/// Whether a branch is as the second one of a pair has to be, of which the first has that number.
fn follows_first(branches: &[Branch], first: u32, it: &Branch) -> bool
    ensures { IsTrue result ↔ IsSomeAnd (branch_at branches.now first) (λ (first : BranchData). IsSecond first it.now) }
{
    let Some(first) = branch_at(branches, first) else {
        return false;
    };
    is_second(first, it)
}

/// Whether a branch is as the first one of that pair has to be.
fn is_first(proof: &Proof, layout: &Layout, pair: u32, it: &Branch) -> bool
    requires layout { IsLayout proof.now layout.now }
    ensures { IsTrue result ↔ IsFirst proof.now.terms.nodes proof.now.branches proof.now.lines pair it.now }
{
    let branches = proof.branches.as_slice();
    let pair = pair as usize;
    branches.len() / 2 > pair
        && it.parent as usize <= pair + pair
        && it.after as usize <= proof.lines.len()
        && begins_within(branches, it)
        && stands_before(proof, layout, it.parent, it.after)
        && !has_pair(proof, layout, pair, it.parent)
        && is_literal(&it.literal)
        && is_formed(&proof.terms, &it.literal)
}

/// Whether the parent of a branch begins at the line at which the branch begins, or before.
fn begins_within(branches: &[Branch], it: &Branch) -> bool
    ensures { IsTrue result ↔ IsSomeAnd (begin_of branches.now it.now.parent) (λ (after : ℕ). after ≤ it.now.after) }
{
    let Some(after) = begin_of(branches, it.parent) else {
        return false;
    };
    after <= it.after
}

/// Whether a branch is as the second one of a pair has to be, of which this is the first.
fn is_second(first: &Branch, it: &Branch) -> bool
    ensures { IsTrue result ↔ IsSecond first.now it.now }
{
    it.parent == first.parent
        && it.after == first.after
        && are_opposite(&first.literal, &it.literal)
}
