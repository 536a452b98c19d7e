//! What the program is to do.

use r9_event::event::Opening;
use r9_memory::Memory;
use std::alloc::AllocError;

/// What the words ask for.
#[derive(Debug, Drop)]
pub enum Job {
    /// Answers a record, and gives the screen behind the replies where it is asked for.
    Replay {
        opening: Opening,
        screen: bool,
    },
    /// Mirrors a record: puts out what changes of the display after each entry, with a cursor over it.
    Mirror {
        opening: Opening,
    },
    /// Serves so many connections at an address, by so many workers.
    Serve {
        opening: Opening,
        listen: String,
        workers: u32,
        conns: u32,
    },
    /// Answers what one session of a record sent, as where it is alone with its window.
    Alone {
        opening: Opening,
        session: u32,
    },
    /// Shows a text in a window of so many columns and rows.
    Text {
        cols: u32,
        rows: u32,
    },
    /// Makes, moves and deletes windows as events of the mouse say.
    Desk,
    /// Makes and answers a record of so many messages.
    Gen {
        number: u32,
    },
}

/// Why there is no job.
#[derive(Clone, Copy, Debug, PartialEq, Eq)]
pub enum OptsFault {
    /// The words ask for nothing.
    Usage,
    Memory,
}

impl From<Memory> for OptsFault {
    ghost use Rattle.std.specs.Prelude.{◌≡◌};
    ghost use Rattle.r9_opts.specs.declared.job.OptsFault.TheVariants as fault;

    ghost from_gives = { λ _ e. e ≡ fault.Memory };

    fn from(_: Memory) -> Self {
        OptsFault::Memory
    }
}

impl From<AllocError> for OptsFault {
    ghost use Rattle.std.specs.Prelude.{◌≡◌};
    ghost use Rattle.r9_opts.specs.declared.job.OptsFault.TheVariants as fault;

    ghost from_gives = { λ _ e. e ≡ fault.Memory };

    fn from(_: AllocError) -> Self {
        OptsFault::Memory
    }
}
