//! The libraries run on known values, beside what is proved of them.
#![tactic(auto)]

#[cfg(test)]
mod address_texts;
#[cfg(test)]
mod divisions;
#[cfg(test)]
mod explanations;
#[cfg(test)]
mod families;
#[cfg(test)]
mod layouts;
