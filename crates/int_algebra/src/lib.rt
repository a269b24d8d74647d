//! Integer algebra for proofs, by reflection. The crate has no code: `proofs/` proves identities of
//! polynomials over ℤ (`Ring`), inequalities by certificates of squares and products (`Orders`),
//! bounds of polynomials (`Bounds`), and that machine arithmetic whose bounds fit keeps the exact
//! values (`Kept`). `Corners` has the expressions of points: differences, products, determinants.
#![tactic(auto)]
