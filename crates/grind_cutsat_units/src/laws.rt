//! What each case lets be said. Each law is a call without a body: who makes the call knows the law.
ghost use Rattle.grind_cutsat_units.specs.Laws.{ComparisonsAreTyped, EqualitiesAreTyped, EquationsAreTyped, CutsAreTyped, ResolutionsAreTyped, StrictBoundsAreTyped, SettledAreTyped, ClashesAreTyped, PinchesAreTyped, DraftsAreTyped};

/// A known comparison is read by the rule `read`.
pub fn comparisons_are_typed()
    ensures { ComparisonsAreTyped }
{}

/// An equality of whole numbers is read in both directions, by the rules `line` and `sym`.
pub fn equalities_are_typed()
    ensures { EqualitiesAreTyped }
{}

/// An equation of degree at most 1 is read by the rule `combine`.
pub fn equations_are_typed()
    ensures { EquationsAreTyped }
{}

/// A bound is cut by the rule `combine`.
pub fn cuts_are_typed()
    ensures { CutsAreTyped }
{}

/// Two bounds are resolved by the rule `combine`.
pub fn resolutions_are_typed()
    ensures { ResolutionsAreTyped }
{}

/// A bound of two whole numbers that differ is made strict by the rule `strict`.
pub fn strict_bounds_are_typed()
    ensures { StrictBoundsAreTyped }
{}

/// An unknown comparison is settled by the rule `write`, and the sides of an unknown equation are kept apart by `apart`.
pub fn settled_are_typed()
    ensures { SettledAreTyped }
{}

/// A bound that cannot be contradicts itself, by the rule `clash`.
pub fn clashes_are_typed()
    ensures { ClashesAreTyped }
{}

/// Two terms that are pinched are equal, by the rule `pinch`.
pub fn pinches_are_typed()
    ensures { PinchesAreTyped }
{}

/// The drafts of typed posts are typed, each from the posts that it names.
pub fn drafts_are_typed()
    ensures { DraftsAreTyped }
{}
