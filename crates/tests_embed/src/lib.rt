//! Tests of a display inside another program, with ample memory.
#![tactic(auto)]

#[cfg(test)]
mod display;
