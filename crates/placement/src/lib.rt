//! Prefixes placed in a store by hand, what is answered to a line that asks for it, and a listing of what stands where.
#![tactic(auto)]

pub mod answer;
pub mod listing;
pub mod placer;
pub mod placing;
pub mod text;
