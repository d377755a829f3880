//! Sums and products of whole numbers.
ghost use Rattle.grind_lemmas.specs.Products as products;

/// A sum does not change with the order of its parts.
pub fn sums_commute()
    ensures { products.SumsCommute }
{}

/// Nor with the order in which they are added.
pub fn sums_associate()
    ensures { products.SumsAssociate }
{}

/// A product does not change with the order of its factors.
pub fn products_commute()
    ensures { products.ProductsCommute }
{}

/// Nor with the order in which they are multiplied.
pub fn products_associate()
    ensures { products.ProductsAssociate }
{}

/// A product with a sum is the sum of the products.
pub fn products_distribute()
    ensures { products.ProductsDistribute }
{}

/// A product with a negation is the negation of the product.
pub fn products_keep_signs()
    ensures { products.ProductsKeepSigns }
{}

/// The product of two numbers that are not negative is not negative.
pub fn products_stay_nonnegative()
    ensures { products.ProductsStayNonnegative }
{}

/// A factor that is not negative keeps order.
pub fn products_keep_order()
    ensures { products.ProductsKeepOrder }
{}

/// A multiple of a positive number that is below that number is that of a number at most 0.
pub fn multiples_skip()
    ensures { products.MultiplesSkip }
{}

/// Where a product is 0 and its first factor is not, its second factor is 0.
pub fn products_vanish()
    ensures { products.ProductsVanish }
{}

/// A factor that is not 0 may be taken off both sides.
pub fn products_cancel()
    ensures { products.ProductsCancel }
{}
