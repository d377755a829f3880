//! What one pass over the lines, and one over the pairs, tells of every branch.
ghost use Rattle.std.specs.Prelude.{◌≤◌, length, IfOk};
ghost use Rattle.grind_proof_kernel.specs.Layouts.{IsSpan, IsFirstPair, IsLayout};

use crate::pairs::{first_pairs, pair_at};
use crate::spans::{Span, span_at, spans_of};
use grind_claims::Proof;
use grind_outside::{List, Memory};
use std::alloc::Global;

/// What is known of every branch of a proof, from the root.
#[derive(Drop)]
pub struct Layout {
    /// Where the lines of the branch stand.
    pub spans: List<Span>,
    /// The number of the first pair that goes on from the branch, and 2^32 - 1 where none does.
    pub pairs: List<u32>,
}

/// The layout of a proof.
///
/// # Errors
/// `Memory` where there is none.
pub fn layout_of(alloc: Global, proof: &Proof) -> Result<Layout, Memory>
    ensures { IfOk result (IsLayout proof.now) }
{
    let count = proof.branches.len() + 1;
    let spans = spans_of(alloc, proof.lines.as_slice(), count)?;
    let pairs = first_pairs(alloc, proof.branches.as_slice(), count)?;
    Ok(Layout { spans, pairs })
}

/// Where the lines of a branch stand.
pub fn span_of(_proof: &Proof, layout: &Layout, branch: u32) -> Span
    requires layout { IsLayout _proof.now layout.now }
    requires stands { branch ≤ length _proof.now.branches }
    ensures { IsSpan _proof.now.lines branch result }
{
    span_at(layout.spans.as_slice(), branch as usize)
}

/// The number of the first pair that goes on from a branch, and 2^32 - 1 where none does.
pub fn first_pair_of(_proof: &Proof, layout: &Layout, branch: u32) -> u32
    requires layout { IsLayout _proof.now layout.now }
    requires stands { branch ≤ length _proof.now.branches }
    ensures { IsFirstPair _proof.now.branches branch result }
{
    pair_at(layout.pairs.as_slice(), branch as usize)
}
