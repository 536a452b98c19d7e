//! Why a call was not done.

use r9_memory::Memory;
use std::alloc::{AllocError, AllocFailed};
use thiserror::Error;

/// Why a call of a book was not done.
#[derive(Clone, Copy, Debug, PartialEq, Eq, Error)]
pub enum BookFault {
    /// The number of the refusal, as the draw device counts them.
    #[error("refused by {0}")]
    Refused(u8),
    /// There was no memory.
    #[error("out of memory")]
    Memory,
}

impl From<u8> for BookFault {
    ghost use Rattle.std.specs.Prelude.{◌≡◌};
    ghost use Rattle.r9_images.specs.declared.images.fault.BookFault.TheVariants as fault;

    ghost from_gives = { λ n e. e ≡ fault.Refused n };

    fn from(number: u8) -> Self {
        BookFault::Refused(number)
    }
}

impl From<Memory> for BookFault {
    ghost use Rattle.std.specs.Prelude.{◌≡◌};
    ghost use Rattle.r9_images.specs.declared.images.fault.BookFault.TheVariants as fault;

    ghost from_gives = { λ _ e. e ≡ fault.Memory };

    fn from(_: Memory) -> Self {
        BookFault::Memory
    }
}

impl From<AllocError> for BookFault {
    ghost use Rattle.std.specs.Prelude.{◌≡◌};
    ghost use Rattle.r9_images.specs.declared.images.fault.BookFault.TheVariants as fault;

    ghost from_gives = { λ _ e. e ≡ fault.Memory };

    fn from(_: AllocError) -> Self {
        BookFault::Memory
    }
}

impl<T: Drop> From<AllocFailed<T>> for BookFault {
    ghost use Rattle.std.specs.Prelude.{◌≡◌};
    ghost use Rattle.r9_images.specs.declared.images.fault.BookFault.TheVariants as fault;

    ghost from_gives = { λ _ e. e ≡ fault.Memory };

    fn from(_: AllocFailed<T>) -> Self {
        BookFault::Memory
    }
}
