//! Why there are no replies.

use r9_isol::watch::WatchFault;
use r9_journal::JournalFault;
use r9_memory::Memory;

/// Why there are no replies.
#[derive(Clone, Copy, Debug, PartialEq, Eq)]
pub enum AloneFault {
    /// The session is not alone with its window from the entry of this number on, by the number of the lowest reason.
    NotAlone { entry: u64, reason: u8 },
    /// The input is no record, and goes wrong at this place.
    BadRecord(u64),
    /// The input is a part of a record, which begins with the entry of this number.
    LateRecord(u64),
    /// The input failed.
    ReadFault,
    /// There was no memory.
    Memory,
}

impl From<Memory> for AloneFault {
    ghost use Rattle.std.specs.Prelude.{◌≡◌};
    ghost use Rattle.r9_serve.specs.declared.alone.fault.AloneFault.TheVariants as fault;

    ghost from_gives = { λ _ e. e ≡ fault.Memory };

    fn from(_: Memory) -> Self {
        AloneFault::Memory
    }
}

impl From<JournalFault> for AloneFault {
    ghost use Rattle.std.specs.Prelude.{◌≡◌};
    ghost use Rattle.r9_serve.specs.alone.Faults.{of_journal};

    ghost from_gives = { λ fault e. e ≡ of_journal fault };

    fn from(fault: JournalFault) -> Self {
        match fault {
            JournalFault::Bad(place) => AloneFault::BadRecord(place),
            JournalFault::Late(first) => AloneFault::LateRecord(first),
            JournalFault::Memory => AloneFault::Memory,
        }
    }
}

impl From<WatchFault> for AloneFault {
    ghost use Rattle.std.specs.Prelude.{◌≡◌};
    ghost use Rattle.r9_serve.specs.alone.Faults.{of_watch};

    ghost from_gives = { λ fault e. e ≡ of_watch fault };

    fn from(fault: WatchFault) -> Self {
        match fault {
            WatchFault::NotAlone { entry, reason } => AloneFault::NotAlone { entry, reason },
            WatchFault::Memory => AloneFault::Memory,
        }
    }
}
