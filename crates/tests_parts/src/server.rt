//! Tests of 9P and of records, through their public calls.
#![tactic(auto)]

#[cfg(test)]
mod journal;
#[cfg(test)]
mod wire;
