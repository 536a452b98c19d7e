//! How far a reader may be ahead of its writer. Nothing here is promised: a reader that waits longer, or less, does the same.
use crate::attend::room::Room;
use crate::attend::serves::Serves;
use r9_lock::Pass;
use std::sync::Wait;

/// After so many messages the writer is woken, though others are at hand.
const TOGETHER: u32 = 32;

/// A reader waits where the replies to its messages may have more bytes that were not put: so much is left of a client that asks and does
/// not read, and one largest reply.
const MOST_OWED: u32 = 1 << 18;

/// The kind of a read, and where the number of bytes stands that it asks for.
const READ: u8 = 116;

const COUNT: usize = 19;

/// No reply but that to a read has more bytes.
const SMALL_REPLY: u32 = 512;

/// How many bytes the reply to a message has at most, which is no longer than this itself.
pub(crate) fn most_replied(message: &[u8], longest: u32) -> u32 {
    if message.get(4) != Some(&READ) {
        return SMALL_REPLY;
    }
    match message.get(COUNT..COUNT + 4) {
        Some([a, b, c, d]) => u32::from_le_bytes([*a, *b, *c, *d]).min(longest),
        _ => SMALL_REPLY,
    }
}

/// What a reader has sent.
#[derive(Clone, Copy)]
pub(crate) struct Pace {
    /// How many messages since the writer was woken.
    sent: u32,
    /// How many bytes the replies may have to those since all that was replied had been put.
    owed: u32,
}

impl Pace {
    /// Nothing was sent.
    pub(crate) fn new() -> Pace {
        Pace { sent: 0, owed: 0 }
    }

    /// Goes on behind a message whose reply has so many bytes at most. Where too much may be owed, the writer is woken, and waited for
    /// until it has put all that was replied. At times it is woken before, so that it writes while messages are at hand.
    pub(crate) fn after<T: Serves, R: Wait>(
        self,
        room: &Room<'_, '_, T, R>,
        pass: &Pass<T>,
        most: u32,
    ) -> Pace {
        let sent = self.sent.saturating_add(1);
        let owed = self.owed.saturating_add(most);
        if sent <= TOGETHER && owed <= MOST_OWED {
            return Pace { sent, owed };
        }
        room.lock.ring(pass, room.session);
        if owed <= MOST_OWED {
            return Pace { sent: 1, owed };
        }
        room.put.wait(room.rt, pass.seen());
        Pace::new()
    }
}
