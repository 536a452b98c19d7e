//! What a command asks for.

ghost use Rattle.std.specs.Prelude.{◌≡◌};

use crate::wctl::options::Options;
use r9_memory::Memory;
use r9_text::Numbers;
use std::alloc::AllocError;
use thiserror::Error;

/// What a command asks for.
#[derive(Debug, Drop)]
pub enum Wctl {
    /// A new window in the same rio.
    New {
        /// What is said of its rectangle.
        options: Options,
        /// Whether it begins hidden.
        hide: bool,
    },
    /// Another rectangle, and an empty image.
    Resize(Options),
    /// Another place.
    Move(Options),
    /// Raises the window.
    Top,
    /// Lowers the window.
    Bottom,
    /// Hides the window.
    Hide,
    /// Shows a hidden window again.
    Unhide,
    /// Gives the window the input.
    Current,
    /// Deletes the window.
    Delete,
    /// Text scrolls or not, which has no effect here.
    Scroll(bool),
    /// Nothing.
    Set,
    /// A rio in the window.
    Host,
}

/// A command, and the path of the window that it names, empty where it names none.
#[derive(Debug, Drop)]
pub struct Command {
    /// What it asks for.
    pub what: Wctl,
    /// The path: a window's number in its rio, from the root rio inward.
    pub id: Numbers,
}

/// Why there is no command.
#[derive(Debug, Drop, Error)]
pub enum WctlFault {
    /// The text spells none.
    #[error("bad wctl command")]
    Bad,
    /// There was no memory.
    #[error("out of memory")]
    Memory,
}

impl From<Memory> for WctlFault {
    ghost use Rattle.r9_wctl.specs.declared.wctl.command.WctlFault.TheVariants as fault;

    ghost from_gives = { λ memory result. result ≡ fault.Memory };

    fn from(_: Memory) -> Self {
        WctlFault::Memory
    }
}

impl From<AllocError> for WctlFault {
    ghost use Rattle.r9_wctl.specs.declared.wctl.command.WctlFault.TheVariants as fault;

    ghost from_gives = { λ error result. result ≡ fault.Memory };

    fn from(_: AllocError) -> Self {
        WctlFault::Memory
    }
}
