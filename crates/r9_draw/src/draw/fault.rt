//! Why a call was not done.

use r9_memory::Memory;
use thiserror::Error;

/// Why a call of the draw device was not done.
#[derive(Clone, Copy, Debug, PartialEq, Eq, Error)]
pub enum DrawFault {
    /// The number of the refusal, as the draw device counts them.
    #[error("refused by {0}")]
    Refused(u8),
    /// There was no memory.
    #[error("out of memory")]
    Memory,
}

impl From<Memory> for DrawFault {
    ghost use Rattle.std.specs.Prelude.{◌≡◌};
    ghost use Rattle.r9_draw.specs.declared.draw.fault.DrawFault.TheVariants as fault;

    ghost from_gives = { λ _ e. e ≡ fault.Memory };

    fn from(_: Memory) -> Self {
        DrawFault::Memory
    }
}
