//! What a session alone with its window is told, and what shows that it is not alone.

use crate::event::rio::Note;
use r9_text::Bytes;

/// What a message of a session did by which a session could notice another one. Windows are named by their serials.
#[derive(Clone, Copy, Debug)]
pub enum Use {
    /// An attach whose name was looked at (attach(5)): whether the name asks for a new window; the window that it gave, none where it
    /// was refused or gave the device's tree; and whether the window is one of the root rio.
    Attach {
        fresh: bool,
        window: Option<u32>,
        root: bool,
    },
    /// An image was looked up by a name (draw(3)): the window whose image has the name, if there is one.
    Name {
        window: Option<u32>,
    },
    /// A walk through the directory of windows into one of them.
    Walk {
        window: u32,
    },
    /// The window became the host of a rio.
    Host {
        window: u32,
    },
    /// Something that all sessions share, by the number of the reason for which `alone` refuses it.
    Own(u8),
}

/// What a session alone with its window is told.
#[derive(Debug, Drop)]
pub enum Item {
    /// Its own message, a whole 9P message (intro(5)), with the mark where memory ran out after so many of its draw messages.
    Sent(Bytes, Option<u32>),
    /// A note of its window.
    Noted(Note),
}
