//! Stores over memory that the caller lends: one element at each place, a record or a word. Depends on store alone, by its
//! contracts.
#![tactic(auto)]

pub mod encoded;
pub mod record;
pub mod slice_store;
pub mod word;
