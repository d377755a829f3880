//! What is known to be 0, and what follows from it.
use grind_outside::List;
use grind_polynomials::Poly;

/// A post that says that a polynomial is 0.
#[derive(Drop)]
pub struct Fact {
    /// The number of the post.
    pub post: u32,
    /// What is 0.
    pub poly: Poly,
}

/// Polynomials that are 0, in the order in which they joined. The normal form of a polynomial is taken by the first of
/// them that reduces a monomial.
#[derive(Drop)]
pub struct Basis {
    /// The numbers of the posts that say so.
    pub posts: List<u32>,
    /// The polynomials, as many.
    pub elements: List<Poly>,
}

/// The S-polynomial of two polynomials.
#[derive(Drop)]
pub struct Pair {
    /// The greatest common divisor of the leading coefficients.
    pub divisor: u128,
    /// The S-polynomial.
    pub poly: Poly,
}

/// The places of two elements of a basis.
#[derive(Clone, Copy)]
pub struct Places {
    /// The place of the first.
    pub first: u32,
    /// The place of the second.
    pub second: u32,
}

/// What comes of two polynomials whose leading terms are to cancel.
#[derive(Drop)]
pub enum Cancelled {
    /// The least common multiple of the leading monomials has a degree over 16.
    TooHigh,
    /// A coefficient of the S-polynomial does not fit in 128 bits.
    TooLarge,
    /// The S-polynomial.
    Made(Pair),
}

/// A premise of a line, and how often it is taken.
#[derive(Drop)]
pub struct Share {
    /// What the premise says is 0.
    pub poly: Poly,
    /// How often it is taken.
    pub factor: Poly,
}

/// A line by the rule `ideal`: the divisor times what it claims to be 0 is the sum of the premises, each times its factor.
#[derive(Drop)]
pub struct Combination {
    /// How often the claim is taken.
    pub divisor: i128,
    /// The factor of each premise; none is 0.
    pub factors: List<Poly>,
    /// The posts that are the premises, in rising order.
    pub from: List<u32>,
}
