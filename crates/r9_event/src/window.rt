//! What the window manager keeps of a window and of a rio, as plain values, and the rectangles that windows have.
#![tactic(auto)]

mod bounds;

pub use bounds::Bounds;

/// A window.
#[derive(Clone, Copy, PartialEq, Eq, Debug)]
pub struct Window {
    /// Which of all windows that were made it is, from 1.
    pub serial: u32,
    /// The serial of the window that hosts the rio in which it is, 0 for the root rio.
    pub host: u32,
    /// Which of all windows that were made in its rio it is, from 1.
    pub number: u32,
    /// Its rectangle, in pixels of the display.
    pub r: Bounds,
    /// How many images it has had.
    pub generation: u64,
    /// Whether it is hidden.
    pub hidden: bool,
}

/// Who gets the events of the mouse while buttons are pressed.
#[derive(Clone, Copy, PartialEq, Eq, Debug)]
pub enum Hold {
    /// No button is pressed.
    Free,
    /// The window with this serial.
    Held(u32),
    Nobody,
}

/// A rio: the windows on the display, or those in a window.
#[derive(Clone, Copy, PartialEq, Eq, Debug)]
pub struct Rio {
    /// The serial of the window that hosts it, 0 for the root rio.
    pub host: u32,
    /// The number that its next window gets.
    pub next: u32,
    /// The serial of the window that gets the keys.
    pub current: Option<u32>,
    /// Who gets the events of the mouse.
    pub hold: Hold,
}
