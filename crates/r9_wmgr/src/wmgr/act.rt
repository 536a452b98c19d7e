//! What may happen to the windows, and what comes of it.

use model_files::mouse::Mouse;
use r9_event::event::{Notes, Orders};
use r9_memory::Memory;
use r9_text::Bytes;
use r9_wctl::wctl::{Options, Wctl};
use std::alloc::AllocError;

/// What may happen to the windows. They are named by their serials, and so are rios, by their hosts': 0 is the root rio.
#[derive(Debug, Drop)]
pub enum Act {
    /// A new window in a rio, with these options of its rectangle, hidden or not.
    New {
        rio: u32,
        options: Options,
        hide: bool,
    },
    /// A command to a window.
    Command {
        window: u32,
        what: Wctl,
    },
    /// An event of the mouse.
    Mouse(Mouse),
    /// Characters from the keyboard, in UTF-8.
    Keys(Bytes),
    /// Nobody uses the window any more.
    Gone {
        window: u32,
    },
    /// The display has another size, in pixels.
    Size {
        width: u32,
        height: u32,
    },
}

/// What an act asks of the draw device, and what it tells windows, each in order.
#[derive(Debug, Drop)]
pub struct Step {
    pub orders: Orders,
    pub notes: Notes,
}

/// Why an act was not done.
#[derive(Clone, Copy, Debug, PartialEq, Eq)]
pub enum ActFault {
    /// The number of the refusal: 42 where the window is gone, 47 where a rectangle or its host is refused, 49 where
    /// there are too many windows, 50 where rios would be nested too deep.
    Refused(u8),
    /// There was no memory.
    Memory,
}

impl From<Memory> for ActFault {
    ghost use Rattle.std.specs.Prelude.{◌≡◌};
    ghost use Rattle.r9_wmgr.specs.declared.wmgr.act.ActFault.TheVariants as fault;

    ghost from_gives = { λ _ e. e ≡ fault.Memory };

    fn from(_: Memory) -> Self {
        ActFault::Memory
    }
}

impl From<AllocError> for ActFault {
    ghost use Rattle.std.specs.Prelude.{◌≡◌};
    ghost use Rattle.r9_wmgr.specs.declared.wmgr.act.ActFault.TheVariants as fault;

    ghost from_gives = { λ _ e. e ≡ fault.Memory };

    fn from(_: AllocError) -> Self {
        ActFault::Memory
    }
}
