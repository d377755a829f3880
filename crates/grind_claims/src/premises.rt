//! The claims of the premises, where there are as many as the rule asks for.
ghost use Rattle.std.specs.Prelude.{◌≡◌, ◌≢◌, [], ◌∷◌, length, IfSome, IfNone};
ghost use Rattle.grind_claims.specs.Claims.{claims_of};

use crate::claim::Claim;

/// The only claim, where there is exactly one.
pub fn only_premise<'a>(premises: &[&'a Claim]) -> Option<&'a Claim>
    ensures some { IfSome result (λ claim. claims_of premises.now ≡ claim.now ∷ []) }
    ensures none { IfNone result (length (claims_of premises.now) ≢ 1) }
{
    let [only] = premises else {
        return None;
    };
    Some(*only)
}

/// The claims, where there are exactly two.
pub fn two_premises<'a>(premises: &[&'a Claim]) -> Option<(&'a Claim, &'a Claim)>
    ensures some { IfSome result (λ pair. claims_of premises.now ≡ pair.0.now ∷ pair.1.now ∷ []) }
    ensures none { IfNone result (length (claims_of premises.now) ≢ 2) }
{
    let [first, second] = premises else {
        return None;
    };
    Some((*first, *second))
}

/// The claims, where there are exactly three.
pub fn three_premises<'a>(premises: &[&'a Claim]) -> Option<(&'a Claim, &'a Claim, &'a Claim)>
    ensures some { IfSome result (λ three. claims_of premises.now ≡ three.0.now ∷ three.1.now ∷ three.2.now ∷ []) }
    ensures none { IfNone result (length (claims_of premises.now) ≢ 3) }
{
    let [first, second, third] = premises else {
        return None;
    };
    Some((*first, *second, *third))
}
