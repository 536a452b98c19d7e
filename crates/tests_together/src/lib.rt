//! Tests of `serve` by the top call: sessions beside each other, a record that is written while a session goes on, and both ends of a
//! connection in one process.
#![tactic(auto)]

#[cfg(test)]
mod calls;
#[cfg(test)]
mod door;
#[cfg(test)]
mod ends;
#[cfg(test)]
mod flushes;
#[cfg(test)]
mod long;
#[cfg(test)]
mod network;
#[cfg(test)]
mod talks;
#[cfg(test)]
mod together;
