//! Vectors of whole numbers between points of the grid: sums and products, with bounds from which
//! each number that is computed is seen to fit.
#![tactic(auto)]

mod products;
mod vector;

pub use products::{cross, dot, short_dot, squared_length};
pub use vector::{Vector, difference, minus, opposite, scaled_difference};
