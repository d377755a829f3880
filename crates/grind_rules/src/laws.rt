//! What holds of all rules. Each law is a call without a body: its caller knows the law.
ghost use Rattle.grind_rules.specs.Laws.{AllowedStays, PremisesAreCounted};

use grind_differences::{differences_stay, poly_differences_stay};
use grind_truth_tables::laws::tables_stay;

/// What a rule allows it allows where terms are appended to the others, too.
pub fn allowed_stays()
    ensures { AllowedStays }
{
    tables_stay();
    differences_stay();
    poly_differences_stay();
}

#[tactic(auto, using(crate::proofs::Counts::premises_are_counted))]
/// A rule that allows a claim has as many premises as it asks for.
pub fn premises_are_counted()
    ensures { PremisesAreCounted }
{}
