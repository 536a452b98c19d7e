//! Why a message is not answered as it asks.

ghost use Rattle.std.specs.Prelude.{◌≡◌, ◌<◌, length, IfOk};
ghost use Rattle.model_files.specs.wire.Spelling.{FitsR};
ghost use Rattle.model_world.specs.Refusal.{draw_texts, file_texts, refusal, refusal_text, text_in};
ghost use Rattle.r9_wire.specs.View.{r_of};

use r9_memory::Memory;
use r9_text::Bytes;
use r9_wire::Rmsg;
use std::alloc::Global;

/// The number of the refusal "image memory allocation failed".
pub const NO_IMAGE_MEMORY: u8 = 24;

/// The number of the refusal "draw read too short".
pub const DRAW_READ_TOO_SHORT: u8 = 25;

/// The number of the refusal "bad message".
pub const BAD_MESSAGE: u8 = 30;

/// The number of the refusal "version first".
pub const VERSION_FIRST: u8 = 31;

/// The number of the refusal "unknown fid".
pub const UNKNOWN_FID: u8 = 32;

/// The number of the refusal "fid in use".
pub const FID_IN_USE: u8 = 33;

/// The number of the refusal "fid is open".
pub const FID_IS_OPEN: u8 = 36;

/// The number of the refusal "fid not open".
pub const FID_NOT_OPEN: u8 = 37;

/// The number of the refusal "permission denied".
pub const PERMISSION_DENIED: u8 = 38;

/// The number of the refusal "bad offset".
pub const BAD_OFFSET: u8 = 39;

/// The number of the refusal "no authentication".
pub const NO_AUTHENTICATION: u8 = 40;

/// The number of the refusal "unknown id in attach".
pub const UNKNOWN_ATTACH: u8 = 41;

/// The number of the refusal "file in use".
pub const FILE_IN_USE: u8 = 43;

/// The number of the refusal "too many fids".
pub const TOO_MANY_FIDS: u8 = 44;

/// The number of the refusal "too many blocked reads".
pub const TOO_MANY_BLOCKED_READS: u8 = 45;

/// The number of the refusal "read too short".
pub const READ_TOO_SHORT: u8 = 46;

/// The number of the refusal "bad wctl command".
pub const BAD_WCTL_COMMAND: u8 = 47;

/// The number of the refusal "msize too small".
pub const MSIZE_TOO_SMALL: u8 = 48;

/// The number of the refusal "too many windows".
pub const TOO_MANY_WINDOWS: u8 = 49;

/// The number of the refusal "nested too deep".
pub const NESTED_TOO_DEEP: u8 = 50;

/// The number of the refusal "bad input record".
pub const BAD_INPUT: u8 = 51;

/// Why there is no answer.
#[derive(Clone, Copy, Debug, PartialEq, Eq)]
pub enum Fault {
    /// The message is refused, by the reason of this number.
    Refused(u8),
    /// There was no memory.
    Memory,
}

impl From<Memory> for Fault {
    ghost use Rattle.std.specs.Prelude.{◌≡◌};
    ghost use Rattle.r9_files.specs.declared.files.fault.Fault.TheVariants as fault;

    ghost from_gives = { λ _ e. e ≡ fault.Memory };

    fn from(_: Memory) -> Self {
        Fault::Memory
    }
}

impl From<u8> for Fault {
    ghost use Rattle.std.specs.Prelude.{◌≡◌};
    ghost use Rattle.r9_files.specs.declared.files.fault.Fault.TheVariants as fault;

    ghost from_gives = { λ n e. e ≡ fault.Refused n };

    fn from(number: u8) -> Self {
        Fault::Refused(number)
    }
}

/// The text of a refusal by the draw device (draw(3)); empty where there is no such refusal.
fn draw_text(number: u8) -> &'static str
    ensures text { result.now ≡ text_in draw_texts number }
    ensures short { length result.now < 64 }
{
    match number {
        1 => "short draw message",
        2 => "unknown draw message",
        3 => "unsupported draw message",
        4 => "unknown id for draw image",
        5 => "unknown id for draw screen",
        6 => "image id in use",
        7 => "screen id in use",
        8 => "bad channel descriptor",
        9 => "bad rectangle",
        10 => "image too large",
        11 => "image parameters incompatible with screen",
        12 => "readimage outside image",
        13 => "writeimage outside image",
        14 => "image not a font",
        15 => "character index out of range",
        16 => "image name in use",
        17 => "no image with that name",
        18 => "named image no longer valid",
        19 => "wrong name for image",
        20 => "image not a window",
        21 => "bad compositing operator",
        22 => "images not on one screen",
        23 => "bad draw argument",
        NO_IMAGE_MEMORY => "image memory allocation failed",
        DRAW_READ_TOO_SHORT => "draw read too short",
        26 => "no draw data",
        27 => "unknown draw control request",
        _ => "",
    }
}

/// The text of another refusal; empty where there is no such refusal.
fn file_text(number: u8) -> &'static str
    ensures text { result.now ≡ text_in file_texts number }
    ensures short { length result.now < 64 }
{
    match number {
        BAD_MESSAGE => "bad message",
        VERSION_FIRST => "version first",
        UNKNOWN_FID => "unknown fid",
        FID_IN_USE => "fid in use",
        34 => "file does not exist",
        35 => "not a directory",
        FID_IS_OPEN => "fid is open",
        FID_NOT_OPEN => "fid not open",
        PERMISSION_DENIED => "permission denied",
        BAD_OFFSET => "bad offset",
        NO_AUTHENTICATION => "no authentication",
        UNKNOWN_ATTACH => "unknown id in attach",
        42 => "window deleted",
        FILE_IN_USE => "file in use",
        TOO_MANY_FIDS => "too many fids",
        TOO_MANY_BLOCKED_READS => "too many blocked reads",
        READ_TOO_SHORT => "read too short",
        BAD_WCTL_COMMAND => "bad wctl command",
        MSIZE_TOO_SMALL => "msize too small",
        TOO_MANY_WINDOWS => "too many windows",
        NESTED_TOO_DEEP => "nested too deep",
        BAD_INPUT => "bad input record",
        _ => "",
    }
}

/// The text of a refusal (error(5)).
#[tactic(auto, unfolding(model_world::specs::Refusal::refusal_text))]
fn refusal_text(number: u8) -> &'static str
    ensures text { result.now ≡ refusal_text number }
    ensures short { length result.now < 64 }
{
    if number < BAD_MESSAGE {
        draw_text(number)
    } else {
        file_text(number)
    }
}

/// The reply that refuses a message, by the reason of a number.
pub fn refusal(alloc: Global, tag: u16, number: u8) -> Result<Rmsg, Memory>
    ensures reply { IfOk result (λ reply. r_of reply ≡ refusal tag number) }
    ensures fits { IfOk result (λ reply. FitsR (r_of reply)) }
{
    let text = refusal_text(number);
    let ename = Bytes::from_slice(alloc, text.as_bytes())?;
    Ok(Rmsg::Error { tag, ename })
}
