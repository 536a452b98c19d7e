//! How the bytes of a message are taken, and which close their session (intro(5)).

ghost use Rattle.std.specs.Prelude.{◌≡◌, ◌≤◌, length};
ghost use Rattle.model_files.specs.wire.Reading.{tag_of};
ghost use Rattle.model_world.specs.Answer.{taking};
ghost use Rattle.model_world.specs.Replay.{closing_tag};
ghost use Rattle.r9_session.specs.Answers.{taking_of};

use crate::session::Session;

/// How the bytes of a message are taken.
#[derive(Clone, Copy, Debug)]
pub(crate) enum Taking {
    /// Not at all: the session is closed.
    Ignored,
    /// As longer than was agreed.
    TooLong,
    /// As the end of the session, since its tag is that of a read that waits.
    Closes,
    /// As what they spell.
    Reads,
}

/// The kind of a Tversion, after which no read waits.
const VERSION_KIND: u8 = 100;

/// The tag of the bytes of a message.
pub(crate) fn tag_of(bytes: &[u8]) -> u16
    requires { 7 ≤ length bytes.now }
    ensures { result ≡ tag_of bytes.now }
{
    u16::from_le_bytes([bytes[5], bytes[6]])
}

impl Session {
    /// How the bytes of a message are taken.
    pub(crate) fn taking(&self, bytes: &[u8]) -> Taking
        requires { 7 ≤ length bytes.now }
        ensures { taking_of result ≡ taking self.now bytes.now }
    {
        if self.closed.is_some() {
            return Taking::Ignored;
        }
        if bytes.len() > self.msize as usize {
            return Taking::TooLong;
        }
        if bytes[4] != VERSION_KIND && self.waiting.has(tag_of(bytes)) {
            return Taking::Closes;
        }
        Taking::Reads
    }

    /// The tag by which the bytes of a message close the session: that of a read that waits.
    pub fn closing_tag(&self, bytes: &[u8]) -> Option<u16>
        requires { 7 ≤ length bytes.now }
        ensures { result ≡ closing_tag bytes.now (taking self.now bytes.now) }
    {
        match self.taking(bytes) {
            Taking::Closes => Some(tag_of(bytes)),
            Taking::Ignored | Taking::TooLong | Taking::Reads => None,
        }
    }
}
