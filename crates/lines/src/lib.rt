//! What the lines that programs read are made of: where a line ends, and prefixes with their addresses. Depends on
//! notation alone, by its contracts.
#![tactic(auto)]

pub mod line;
pub mod prefix;
