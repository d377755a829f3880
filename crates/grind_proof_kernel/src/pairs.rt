//! Which pair goes on from every branch, from one pass over the pairs.
ghost use Rattle.std.specs.Prelude.{ℕ, ◌≡◌, ◌<◌, ◌≤◌, ◌+◌, length, IfOk, Some, slice_get};
ghost use Rattle.grind_proof_kernel.specs.Layouts.{AreFirstPairs, AreFirstPairsSoFar, NotesPair};
ghost use Rattle.grind_proof_kernel.specs.Typing.{IsPairOf};
ghost use Rattle.grind_claims.specs.declared.proof.Branch.{Branch as BranchData};

use grind_claims::Branch;
use grind_outside::{List, Memory};
use std::alloc::Global;

/// The number of the first pair that goes on from each of so many branches, from the root, and 2^32 - 1 where none does.
pub fn first_pairs(alloc: Global, branches: &[Branch], count: usize) -> Result<List<u32>, Memory>
    requires { length branches.now < 4294967296 }
    ensures count { IfOk result (λ pairs. length pairs ≡ count) }
    ensures pairs { IfOk result (AreFirstPairs branches.now) }
{
    let mut pairs = no_pairs(alloc, branches, count)?;
    for pair in 0..branches.len() / 2 {
        let parent = parent_of_pair(branches, pair);
        note_pair(&mut pairs, pair as u32, parent);
    }
    Ok(pairs)
}

/// The numbers where no pair is known yet.
fn no_pairs(alloc: Global, _branches: &[Branch], count: usize) -> Result<List<u32>, Memory>
    ensures count { IfOk result (λ pairs. length pairs ≡ count) }
    ensures pairs { IfOk result (AreFirstPairsSoFar _branches.now 0) }
{
    let mut pairs = List::new(alloc);
    for _branch in 0..count {
        pairs.push(u32::MAX)?;
    }
    Ok(pairs)
}

/// The parent of the pair of that number.
fn parent_of_pair(branches: &[Branch], pair: usize) -> u32
    requires { pair + pair + 2 ≤ length branches.now }
    ensures { IsPairOf branches.now pair result }
{
    branches[pair + pair].parent
}

/// Notes the pair of that number at its parent.
fn note_pair(pairs: &mut List<u32>, pair: u32, parent: u32)
    ensures count { length pairs.new ≡ length pairs.old }
    ensures pairs { NotesPair pair parent pairs.old pairs.new }
{
    let branch = parent as usize;
    if branch < pairs.len() {
        let first = pair_at(pairs.as_slice(), branch);
        pairs.set(branch, first.min(pair));
    }
}

/// The number at that place.
pub fn pair_at(pairs: &[u32], branch: usize) -> u32
    requires { branch < length pairs.now }
    ensures { slice_get pairs.now branch ≡ Some result }
{
    pairs[branch]
}
