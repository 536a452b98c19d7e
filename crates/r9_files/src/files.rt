//! What fids stand for and how they are open, what is given of a directory's listing and of a file's contents (read(5)), and
//! what a refusal says (error(5)).
#![tactic(auto)]

mod fault;
mod fid;
mod kinds;
mod listing;
mod offset;

pub use fault::{
    BAD_INPUT, BAD_MESSAGE, BAD_OFFSET, BAD_WCTL_COMMAND, DRAW_READ_TOO_SHORT, FID_IN_USE,
    FID_IS_OPEN, FID_NOT_OPEN, FILE_IN_USE, Fault, MSIZE_TOO_SMALL, NESTED_TOO_DEEP,
    NO_AUTHENTICATION, NO_IMAGE_MEMORY, PERMISSION_DENIED, READ_TOO_SHORT, TOO_MANY_BLOCKED_READS,
    TOO_MANY_FIDS, TOO_MANY_WINDOWS, UNKNOWN_ATTACH, UNKNOWN_FID, VERSION_FIRST, refusal,
};
pub use fid::Fid;
pub use kinds::{is_directory, is_kind};
pub use offset::at_offset;
