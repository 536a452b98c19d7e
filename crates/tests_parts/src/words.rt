//! Tests of the words of the command line and of the generator, through their public calls.
#![tactic(auto)]

#[cfg(test)]
mod generator;
#[cfg(test)]
mod words;
