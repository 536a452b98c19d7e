//! Tests of the clients' crates, through their public calls: that they find memory, and values by the rules of text windows, menus and mirrors.
#![tactic(auto)]

#[cfg(test)]
mod menu;
#[cfg(test)]
mod mirror;
#[cfg(test)]
mod text;
