//! Laws on products of polynomials, and on what they leave modulo the factors of x^n + 1.

ghost use Rattle.number_transform.specs.ProductLaws.{FoldingMultiplies, ProductMultipliesValues, RemaindersMultiply};

/// A law: the value of a product modulo x^n - c, at a number whose n-th power is c, is the product
/// of the values.
pub fn product_multiplies_values()
    ensures { ProductMultipliesValues }
{}

/// A law: a product modulo x^2m - w^2, taken modulo x^m - w, is the product of the factors taken
/// so.
pub fn folding_multiplies()
    ensures { FoldingMultiplies }
{}

/// A law: the remainders of a product are the products of the remainders.
pub fn remainders_multiply()
    ensures { RemaindersMultiply }
{}
