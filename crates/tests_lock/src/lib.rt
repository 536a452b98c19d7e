//! Tests of turns at one value, by one thread, two and four.
#![tactic(auto)]

#[cfg(test)]
mod room;
#[cfg(test)]
mod turns;
#[cfg(test)]
mod values;
