//! What `explain` says of a line: which list and prefix it names, and where the prefix would stand under each tread.
#![tactic(auto)]

pub mod line;
pub mod place;
pub mod query;
pub mod reply;
pub mod text;
