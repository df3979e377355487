//! Where the routes of one address width may stand: widths, prefixes, tread lists, admission and the named lists.
//! Depends on gf2 alone, by its contracts.
#![tactic(auto)]

pub mod admission;
pub mod figures;
pub mod layout;
pub mod named;
pub mod prefix;
pub mod treads;
pub mod width;
