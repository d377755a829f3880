//! Basis elements that are numbers.
ghost use Rattle.std.specs.Prelude.{IfSome, IsNone, MatchOption};
ghost use Rattle.grind_ring_basis.specs.Bases.{IsBasis};
ghost use Rattle.grind_ring_units.specs.Conflicts.{HasContradiction, NoContradiction};

use crate::types::State;
use grind_differences::is_other_than_zero;

/// The first element of the basis that is a number other than 0, by its post.
pub fn first_conflict(state: &State) -> Option<u32>
    requires { IsBasis state.now.basis }
    ensures { MatchOption result (NoContradiction state.now) (λ post. HasContradiction state.now post) }
{
    let mut posts = state.basis.posts.as_slice();
    let mut elements = state.basis.elements.as_slice();
    while let Some((element, elements_tail)) = elements.split_first() {
        let Some((post, posts_tail)) = posts.split_first() else {
            return None;
        };
        if is_other_than_zero(element) {
            return Some(*post);
        }
        posts = posts_tail;
        elements = elements_tail;
    }
    None
}
