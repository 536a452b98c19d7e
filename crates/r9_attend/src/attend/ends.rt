//! How a session ended.

/// Why the reader of a session ended.
#[derive(Clone, Copy, Debug, PartialEq, Eq)]
pub enum ReadEnd {
    /// The source ended behind a whole message.
    Ended,
    /// The source ended with so many bytes of a message that is not whole.
    Cut(usize),
    /// The next message has a size below 7 or above the greatest that the session may send.
    BadSize(u32),
    /// A message has the tag of a read that waited, and closed the session.
    Duplicate(u16),
    /// The source failed, and counted it.
    ReadFault,
    /// The writer had ended the session.
    Closed,
    /// There was no memory, or all has stopped.
    Memory,
    /// The word of the lock was so large that it has no more turns.
    Spent(u64),
    /// There were too many sessions, and none began.
    Crowded,
}

/// Why the writer of a session ended.
#[derive(Clone, Copy, Debug, PartialEq, Eq)]
pub enum WriteEnd {
    /// All replies went out, and no more will come.
    Done,
    /// The sink failed, and counted it.
    WriteFault,
    /// There was no memory, or all has stopped.
    Memory,
    /// The word of the lock was so large that it has no more turns.
    Spent(u64),
    /// There were too many sessions, and none began.
    Crowded,
}

/// How it went with a session. Where none began, both ends name the cause.
#[derive(Clone, Copy, Debug, PartialEq, Eq)]
pub struct Attended {
    pub session: Option<u32>,
    pub reader: ReadEnd,
    pub writer: WriteEnd,
}
