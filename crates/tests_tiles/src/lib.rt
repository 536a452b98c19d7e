//! Tests of how many tiles a draw device holds, how many pixels it writes, and which cells of the display it marks, through its public calls (draw(3)).
#![tactic(auto)]

#[cfg(test)]
mod device;
#[cfg(test)]
mod marks;
#[cfg(test)]
mod step;
#[cfg(test)]
mod tiles;
