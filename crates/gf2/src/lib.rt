//! Polynomials over GF(2) as numbers, and division by a generator. It knows nothing of addresses or routes.
#![tactic(auto)]

pub mod division;
pub mod generator;
