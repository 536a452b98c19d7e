//! What the window manager tells windows, and what it orders of the draw device.

use r9_geom::{Point, Rect};
use r9_text::Bytes;

/// What happens to a window. Rectangles and points are in pixels of the display.
#[derive(Debug, Drop)]
pub enum Note {
    /// The window is there: its number in its rio, its serial among all windows, the name of its image, its rectangle, and
    /// how many numbers its path has.
    Made {
        number: u32,
        serial: u32,
        name: Bytes,
        r: Rect,
        depth: u32,
    },
    /// It has another place, and an image of another name with the old contents.
    Moved {
        name: Bytes,
        r: Rect,
    },
    /// It has another rectangle, and an empty image of another name.
    Resized {
        name: Bytes,
        r: Rect,
    },
    /// It gets the input from now on, or no longer.
    Current(bool),
    /// It is hidden from now on, or no longer.
    Hidden(bool),
    /// An event of the mouse.
    Mouse {
        x: i32,
        y: i32,
        buttons: u8,
        msec: u32,
    },
    /// The bytes of one character from the keyboard.
    Key(Bytes),
    /// It is gone.
    Deleted,
}

/// What the draw device has to do. Windows and hosts are named by serials; host 0 is the display.
#[derive(Debug, Drop)]
pub enum Order {
    /// A new image for a window, on the screen of its host's rio, under a name.
    Make {
        window: u32,
        host: u32,
        r: Rect,
        name: Bytes,
        hide: bool,
        depth: u32,
    },
    /// The window's image has another place.
    Place {
        window: u32,
        at: Point,
    },
    /// A new image in place of the window's, under another name, with the contents of the old one where it keeps them. Where
    /// the host has a new image, the window becomes the topmost one on that.
    Replace {
        window: u32,
        host: u32,
        r: Rect,
        name: Bytes,
        keep: bool,
        hidden: bool,
    },
    /// The window comes to the top of its rio.
    Raise {
        window: u32,
    },
    /// The window goes to the bottom of its rio.
    Lower {
        window: u32,
    },
    /// The window's image goes.
    Drop {
        window: u32,
    },
    /// A screen on the window's image, whose inside is filled first where it says so.
    Host {
        window: u32,
        fill: bool,
    },
    /// A connection ends.
    Leave {
        client: u64,
    },
    /// The display has another size, in pixels.
    Size {
        width: u32,
        height: u32,
    },
}
