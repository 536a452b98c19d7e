//! Events and what they give.

use crate::event::lists::{Notes, Replies, Uses};
use r9_chan::Chan;
use r9_text::Bytes;

/// One turn of the server. Sessions are numbered from 1.
#[derive(Debug, Drop)]
pub enum Event {
    /// A session begins.
    Begin {
        session: u32,
    },
    /// A whole 9P message of a session (intro(5)). With a mark, memory ran out after so many draw messages of it.
    Msg {
        session: u32,
        bytes: Bytes,
        mark: Option<u32>,
    },
    /// The replies that wait for a session are taken.
    Take {
        session: u32,
    },
    /// A session ends.
    End {
        session: u32,
    },
    /// Memory ran out, and all stops.
    Stop,
}

/// An event and its number in the history, from 1.
#[derive(Debug, Drop)]
pub struct Entry {
    pub number: u64,
    pub event: Event,
}

/// A reply, the bytes of a whole 9P message, and the session that gets it.
#[derive(Debug, Drop)]
pub struct Reply {
    pub session: u32,
    pub bytes: Bytes,
}

/// What an event gave.
#[derive(Debug, Drop)]
pub struct Did {
    /// The replies, in order.
    pub replies: Replies,
    /// What the windows were told, in order, each note with the serial of its window.
    pub notes: Notes,
    /// What the event used by which a session could notice another one, in order.
    pub uses: Uses,
    /// Where memory ran out in a data write: how many of its draw messages were done. The event stands in the history with
    /// this mark.
    pub short: Option<u32>,
    /// Where the event closed its session, since the tag of a read that waited came again: that tag (intro(5)).
    pub closed: Option<u16>,
}

/// The display with which the server starts: its sides in pixels, and the channels of its pixels.
#[derive(Clone, Copy, Debug, PartialEq, Eq)]
pub struct Opening {
    pub width: u32,
    pub height: u32,
    pub chan: Chan,
}
