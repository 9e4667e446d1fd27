//! An exact number-theoretic transform (NTT): products of polynomials modulo x^n + 1 and the prime
//! 2^64 - 2^32 + 1, where n is a power of two, in n log n steps.
//!
//! `field` has the arithmetic modulo the prime. x^n + 1 is split into halves again and again, down
//! to linear factors, by a tree of square roots: what a polynomial leaves modulo those are n
//! residues, and the product of two polynomials leaves the products of theirs.
#![tactic(auto)]

mod field;
mod forward;
mod inverse;
mod laws;
mod multiplier;
mod roots;

pub use field::{
    PRIME, add, difference_undoes_sum, from_signed, multiply, power, small_numbers_differ,
    subtract, to_signed,
};
pub use laws::{folding_multiplies, product_multiplies_values, remainders_multiply};
pub use multiplier::Multiplier;

#[cfg(test)]
mod field_tests;
#[cfg(test)]
mod product_tests;
