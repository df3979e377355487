//! How numbers, IPv4 addresses and IPv6 addresses are written as text.
#![tactic(auto)]

pub mod decimal;
mod digits;
mod groups;
pub mod hex;
pub mod ipv4;
pub mod ipv6_read;
pub mod ipv6_write;
pub mod split;
mod zero_run;
