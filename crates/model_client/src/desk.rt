//! Windows that a mouse makes, moves and deletes by a menu: the definitions that contracts of other crates cite, and
//! laws about them as contracts of functions that do nothing.
#![tactic(auto)]

use r9_geom::{Point, Rect};
use r9_text::Bytes;

/// Where an event of the mouse was, in pixels.
#[derive(Clone, Copy)]
pub struct Spot {
    pub x: i32,
    pub y: i32,
}

/// A window: its number in the root rio, and its rectangle on the display.
#[derive(Clone, Copy)]
pub struct Pane {
    pub number: u64,
    pub r: Rect,
}

/// The items of the menu that want a window.
#[derive(Clone, Copy)]
pub enum Item {
    Resize,
    Move,
    Delete,
    Hide,
}

/// What the next event will mean.
#[derive(Clone, Copy)]
pub enum Mode {
    /// It goes to the windows, or asks for the menu.
    Idle,
    /// The menu stands in a window of its own with its min there, until the buttons are released on an item.
    Menu { at: Spot, window: u64 },
    /// An item waits for a press on a window.
    Pick(Item),
    /// A press is over, and its release is waited for; then the window is swept, where one is named.
    Drain { sweep: Option<u64> },
    /// A press is waited for, with which the sweep of a window begins, of a new one where none is named.
    Sweep { window: Option<u64> },
    /// The sweep goes on from there.
    Sweeping { window: Option<u64>, from: Spot },
    /// A window, as it is now, is dragged from there.
    Drag { pane: Pane, from: Spot },
}

/// What an event asks for.
#[derive(Clone, Copy)]
pub enum Act {
    Nothing,
    /// The event goes to the windows, and may raise one.
    Pass { raised: Option<Pane> },
    New(Rect),
    Resize { window: u64, r: Rect },
    /// Moves a window by so many columns and rows.
    Move { pane: Pane, by: Point },
    Delete(u64),
    Hide(Pane),
}

/// What an event asks for, and what the next one will mean.
#[derive(Clone, Copy)]
pub struct Ask {
    pub act: Act,
    pub mode: Mode,
}

/// A text, under the file that it is written to.
#[derive(Drop)]
pub enum Text {
    Wctl(Bytes),
    Mousein(Bytes),
}

mod laws;

pub use laws::pilot_goes_on;
