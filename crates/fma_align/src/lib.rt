// The product of fma, the product and the third number aligned to one exponent, and their sum, in one word or in two.
#![tactic(auto)]

pub mod align;
pub mod magnitude;
pub mod product;
pub mod sum;
