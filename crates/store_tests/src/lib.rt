//! Stores and placers run against plain models of them, beside what is proved.
#![tactic(auto)]

#[cfg(test)]
mod placements;
#[cfg(test)]
mod stores;
