//! Tests of the small crates, through their public calls: that they find memory, and values that come from the manuals.
#![tactic(auto)]

#[cfg(test)]
mod client;
#[cfg(test)]
mod event;
#[cfg(test)]
mod fids;
#[cfg(test)]
mod fonts;
#[cfg(test)]
mod frame;
#[cfg(test)]
mod imgfile;
#[cfg(test)]
mod outside;
#[cfg(test)]
mod region;
#[cfg(test)]
mod store;
#[cfg(test)]
mod tags;
#[cfg(test)]
mod text;
