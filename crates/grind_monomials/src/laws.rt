//! What the order, the products and the quotients of monomials mean. Each law is a call without an answer: who makes
//! the call knows the law.
ghost use Rattle.grind_monomials.specs.Laws as laws;

/// Two monomials of which neither is greater are one.
pub fn neither_above_is_one()
    ensures { laws.NeitherAboveIsOne }
{}

/// Where the first monomial is the lesser one, the second is the greater one.
pub fn places_turn()
    ensures { laws.PlacesTurn }
{}

/// What is above another monomial is above all below that one.
pub fn places_chain()
    ensures { laws.PlacesChain }
{}

/// A factor keeps the order.
pub fn products_keep_places()
    ensures { laws.ProductsKeepPlaces }
{}

/// Two monomials in which each node stands equally often are one.
pub fn counts_decide()
    ensures { laws.CountsDecide }
{}

/// The nodes of a product are those of both factors, in order.
pub fn products_add()
    ensures { laws.ProductsAdd }
{}

/// The nodes of a quotient are those by which the first monomial has more.
pub fn quotients_subtract()
    ensures { laws.QuotientsSubtract }
{}

/// Where a monomial divides another, it is a factor of it, and the quotient is the other factor.
pub fn quotients_complete()
    ensures { laws.QuotientsComplete }
{}

/// What a monomial is multiplied by, it divides.
pub fn factors_divide()
    ensures { laws.FactorsDivide }
{}

/// A product has the product of the values.
pub fn products_have_their_values()
    ensures { laws.ProductsHaveTheirValues }
{}
