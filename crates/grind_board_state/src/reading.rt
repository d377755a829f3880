//! What congruence closure makes of a post that it reads.
ghost use Rattle.std.specs.Prelude.{◌≡◌, OnOk, OnErr};
ghost use Rattle.grind_congruence.specs.Congruence.{Fits};
ghost use Rattle.grind_board_state.specs.Reads.{HasSides, IsTakenIn};

use grind_claims::Claim;
use grind_congruence::Closure;
use grind_outside::Memory;
use grind_term_graph::TermTable;
use std::alloc::Global;

// Takes in what the post of that number claims: an equality joins two classes.
pub(crate) fn take_in(
    alloc: Global,
    terms: &TermTable,
    closure: &mut Closure,
    claim: &Claim,
    number: u32,
) -> Result<(), Memory>
    requires fits { Fits closure.old terms.now.nodes }
    requires sides { HasSides closure.old claim.now }
    ensures ok { OnOk result (IsTakenIn number claim.now closure.old closure.new) }
    ensures marked { closure.new.marked ≡ closure.old.marked }
    ensures fits { Fits closure.new terms.now.nodes }
    ensures err { OnErr result (closure.new ≡ closure.old) }
{
    let Claim::Same(left, right) = claim else {
        return Ok(());
    };
    if closure.classes().same(*left, *right) {
        return Ok(());
    }
    closure.assert_same(alloc, terms, *left, *right, number)
}
