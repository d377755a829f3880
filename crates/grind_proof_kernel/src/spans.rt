//! Where the lines of every branch stand, from one pass over the lines.
ghost use Rattle.std.specs.Prelude.{IsTrue, ◌↔◌, ◌≡◌, ◌<◌, ◌+◌, [], length, min, IfOk, Some, slice_get};
ghost use Rattle.grind_claims.specs.declared.claim.Claim.TheVariants.{Absurd};
ghost use Rattle.grind_proof_kernel.specs.Layouts.{AreSpans, NotesLine};

use grind_claims::{Claim, Line};
use grind_outside::{List, Memory};
use std::alloc::Global;

/// Where the lines of a branch begin and end, and whether the last of them claims a contradiction.
#[derive(Clone, Copy)]
pub struct Span {
    /// The number of the first line, and 2^32 - 1 where there is none.
    pub begin: u32,
    /// One more than the number of the last line, and 0 where there is none.
    pub end: u32,
    /// Whether the last line claims a contradiction.
    pub closed: bool,
}

/// The spans of so many branches, from the root.
pub fn spans_of(alloc: Global, lines: &[Line], count: usize) -> Result<List<Span>, Memory>
    requires { length lines.now < 4294967296 }
    ensures count { IfOk result (λ spans. length spans ≡ count) }
    ensures spans { IfOk result (λ spans. AreSpans lines.now spans) }
{
    let mut spans = no_spans(alloc, count)?;
    for i in 0..lines.len() {
        note(&mut spans, i as u32, &lines[i]);
    }
    Ok(spans)
}

/// The spans of so many branches where there is no line.
fn no_spans(alloc: Global, count: usize) -> Result<List<Span>, Memory>
    ensures count { IfOk result (λ spans. length spans ≡ count) }
    ensures spans { IfOk result (λ spans. AreSpans [] spans) }
{
    let mut spans = List::new(alloc);
    for _branch in 0..count {
        spans.push(Span {
            begin: u32::MAX,
            end: 0,
            closed: false,
        })?;
    }
    Ok(spans)
}

/// Notes line `i` in the span of its branch.
fn note(spans: &mut List<Span>, i: u32, line: &Line)
    requires { i < 4294967295 }
    ensures count { length spans.new ≡ length spans.old }
    ensures spans { NotesLine line.now i spans.old spans.new }
{
    let branch = line.branch as usize;
    if branch < spans.len() {
        let span = span_at(spans.as_slice(), branch);
        let next = with_line(span, i, is_absurd(&line.claim));
        spans.set(branch, next);
    }
}

/// The span at that place.
pub fn span_at(spans: &[Span], branch: usize) -> Span
    requires { branch < length spans.now }
    ensures { slice_get spans.now branch ≡ Some result }
{
    spans[branch]
}

/// The span with one more line, after those that it has.
fn with_line(span: Span, i: u32, absurd: bool) -> Span
    requires { i < 4294967295 }
    ensures begin { result.begin ≡ min span.begin i }
    ensures end { result.end ≡ i + 1 }
    ensures closed { result.closed ≡ absurd }
{
    Span {
        begin: span.begin.min(i),
        end: i + 1,
        closed: absurd,
    }
}

/// Whether the claim is a contradiction.
fn is_absurd(claim: &Claim) -> bool
    ensures { IsTrue result ↔ (claim.now ≡ Absurd) }
{
    matches!(claim, Claim::Absurd)
}
