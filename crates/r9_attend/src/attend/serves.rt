//! What is served.
ghost use Rattle.model_served.specs.session.Server.{Server, IsServer};
ghost use Rattle.model_served.specs.session.Acts.{DoesOnly};

use r9_event::event::{Answer, Ask, Entry};
use r9_lock::Chronicle;

/// A value that keeps a history and does only what a server may do.
pub trait Serves: Chronicle<Ask = Ask, Answer = Answer, Entry = Entry> {
    /// The server.
    ghost server: { Server };

    ghost lawful: { IsServer server };

    ghost does_only: { DoesOnly server Self.acts };
}
