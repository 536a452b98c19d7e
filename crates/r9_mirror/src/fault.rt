//! Why frames are refused.

use r9_memory::Memory;
use thiserror::Error;

/// Why a text of frames is refused.
#[derive(Clone, Copy, Debug, PartialEq, Eq, Error)]
pub enum ViewFault {
    /// It is no list of whole frames, and goes wrong at this place: the offset in bytes of the first line that does not fit.
    #[error("bad frame at byte {0}")]
    Bad(usize),
    /// There was no memory.
    #[error("out of memory")]
    Memory,
}

impl From<Memory> for ViewFault {
    ghost use Rattle.std.specs.Prelude.{◌≡◌};
    ghost use Rattle.r9_mirror.specs.declared.fault.ViewFault.TheVariants as fault;

    ghost from_gives = { λ _ e. e ≡ fault.Memory };

    fn from(_: Memory) -> Self {
        ViewFault::Memory
    }
}
