//! What is known, as posts are made.
ghost use Rattle.std.specs.Prelude.{◌≡◌, List, [], ◌∷◌, ◌++◌, false, length, replicate, IfOk, OnOk, OnErr};
ghost use Rattle.grind_claims.specs.Claims.{IsFormed};
ghost use Rattle.grind_report_words.specs.declared.board.Post.{Post};
ghost use Rattle.grind_known_posts.specs.Known.{KnowsAll, HasMarks};

use grind_claims::Claim;
use grind_outside::{List, Memory};
use grind_term_graph::TermTable;
use grind_truth_prop::{Couple, Known};
use std::alloc::Global;

/// What is known of these terms where nothing was posted: nothing.
///
/// # Errors
///
/// `Memory` if out of memory.
pub fn nothing_known(alloc: Global, terms: TermTable) -> Result<Known, Memory>
    ensures terms { IfOk result (λ known. known.terms ≡ terms) }
    ensures known { IfOk result (λ known. KnowsAll [] known) }
{
    let holds = unmarked(alloc, terms.len())?;
    let fails = unmarked(alloc, terms.len())?;
    Ok(Known {
        terms,
        holds,
        fails,
        same: List::new(alloc),
        apart: List::new(alloc),
    })
}

#[tactic(auto, using(crate::proofs::LearnLemmas::replicate_next))]
// So many marks, none of them set.
fn unmarked(alloc: Global, count: u32) -> Result<List<bool>, Memory>
    ensures { IfOk result (λ marks. marks ≡ replicate count false) }
{
    let mut marks = List::new(alloc);
    for _number in 0..count {
        marks.push(false)?;
    }
    Ok(marks)
}

/// Takes in what a post claims, which is then known with what the posts before it say.
///
/// # Errors
///
/// `Memory` leaves what is known as it was.
pub fn learn(known: &mut Known, claim: &Claim) -> Result<(), Memory>
    requires formed { IsFormed known.old.terms.nodes claim.now }
    requires marks { HasMarks known.old }
    ensures ok { OnOk result ((posts : List Post) (post : Post) → post.claim ≡ claim.now → KnowsAll posts known.old
        → KnowsAll (posts ++ post ∷ []) known.new) }
    ensures terms { known.new.terms ≡ known.old.terms }
    ensures err { OnErr result (known.new ≡ known.old) }
{
    match claim {
        Claim::Holds(node) => {
            known.holds.set(node.number() as usize, true);
            Ok(())
        }
        Claim::Fails(node) => {
            known.fails.set(node.number() as usize, true);
            Ok(())
        }
        Claim::Same(left, right) => known.same.push(Couple {
            left: *left,
            right: *right,
        }),
        Claim::Differ(left, right) => known.apart.push(Couple {
            left: *left,
            right: *right,
        }),
        Claim::AtMost(_) | Claim::Zero(_) | Claim::Absurd => Ok(()),
    }
}
