//! The record of the generator: eight windows that are raised, lowered, moved and drawn on, as numbers fall. Definitions
//! that contracts cite; no code.
#![tactic(auto)]

/// A point.
#[derive(Clone, Copy, Debug, PartialEq, Eq)]
pub struct Place {
    pub x: i32,
    pub y: i32,
}

/// The points from min on that lie before max.
#[derive(Clone, Copy, Debug, PartialEq, Eq)]
pub struct Area {
    pub min: Place,
    pub max: Place,
}

/// The least corner of a window, counted from the point (-100, -75), beyond which no window goes.
#[derive(Clone, Copy, Debug, PartialEq, Eq)]
pub struct Corner {
    pub x: u16,
    pub y: u16,
}

/// What happens to a window.
#[derive(Clone, Copy, Debug, PartialEq, Eq)]
pub enum Act {
    /// To the top, or to the bottom where top is 0.
    Stack { id: u32, top: u8 },
    /// Its corner goes there.
    Move { id: u32, to: Corner },
    /// All of it is drawn on, where its corner is there.
    Draw { id: u32, source: u32, at: Corner },
}

/// The state of the generator of numbers, and where the windows are.
#[derive(Clone, Copy)]
pub struct Desk {
    pub state: u64,
    pub corners: [Corner; 8],
}
