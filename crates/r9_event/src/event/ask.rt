//! What a server is asked in a turn, and what it answers.

use r9_text::Bytes;

/// What a server is asked to do in a turn.
#[derive(Debug, Drop)]
pub enum Ask {
    /// To begin a session.
    Begin,
    /// To take a whole message of a session.
    Msg { session: u32, bytes: Bytes },
    /// To hand out what waits for a session.
    Look { session: u32 },
    /// To end a session.
    End { session: u32 },
}

/// What a server answers.
#[derive(Debug, Drop)]
pub enum Answer {
    /// The session with this number has begun.
    Began(u32),
    /// The message was taken. The session's messages may have so many bytes now.
    Went { msize: u32 },
    /// The message was taken, and the session is closed, by a message whose tag was that of a read that waited.
    Duplicate(u16),
    /// The session does not live, or the message is none.
    Closed,
    /// What waited, which was taken.
    Taken(Bytes),
    /// Nothing waits.
    Nothing,
    /// Nothing waits, and nothing more will come.
    Over,
    /// The session has ended.
    Ended,
    /// There are too many sessions.
    Crowded,
    /// There was no memory, or all has stopped.
    Memory,
}
