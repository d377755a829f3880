//! What stays true of claims where terms and lines grow. Each law is a call without a body: its caller knows the law.
ghost use Rattle.grind_claims.specs.Laws.{FormedStays, ClaimsStay, ClaimsCount};

#[tactic(auto, using(crate::proofs::Growth::formed_stays))]
/// A well-formed claim stays so where terms are appended to the others.
pub fn formed_stays()
    ensures { FormedStays }
{}

#[tactic(auto, using(crate::proofs::Growth::claims_stay))]
/// What lines claim they still claim where lines are appended to the others.
pub fn claims_stay()
    ensures { ClaimsStay }
{}

#[tactic(auto, using(crate::proofs::Growth::claims_count))]
/// There are as many claims as lines that claim them.
pub fn claims_count()
    ensures { ClaimsCount }
{}
