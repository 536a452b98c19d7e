//! Tests of the draw device's messages, through their public calls.
#![tactic(auto)]

#[cfg(test)]
mod messages;
