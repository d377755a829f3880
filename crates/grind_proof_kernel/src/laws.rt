//! What holds of every typed line. Each law is a call without a body: its caller knows the law.
ghost use Rattle.grind_proof_kernel.specs.Laws.{TypedLinesStay, TypedNextLine, TypedLinesCount};

use grind_claims::laws::{claims_count, claims_stay, formed_stays};
use grind_rules::laws::{allowed_stays, premises_are_counted};

/// A line stays typed where terms, branches and lines are appended to the proof.
pub fn typed_lines_stay()
    ensures { TypedLinesStay }
{
    formed_stays();
    claims_stay();
    allowed_stays();
}

/// A line that is typed after the lines of a proof is typed once it stands there.
pub fn typed_next_line()
    ensures { TypedNextLine }
{
    formed_stays();
    claims_stay();
    allowed_stays();
}

/// A typed line has as many premises as its rule asks for.
pub fn typed_lines_count()
    ensures { TypedLinesCount }
{
    claims_count();
    premises_are_counted();
}
