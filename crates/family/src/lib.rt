//! Address families: what code over the addresses of any family may rely on, and the families IPv4 and IPv6.
#![tactic(auto)]

pub mod family;
pub mod ipv4;
pub mod ipv6;
pub mod prefixes;
