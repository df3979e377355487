//! What a bucket store means, and code over any store: interleaves of two stores, and emptying a whole store. Depends on
//! nothing.
#![tactic(auto)]

pub mod bucket_store;
pub mod clear;
pub mod interleave;
pub mod place;
pub mod places;
pub mod shape;
