// The kinds of channels, and whether a descriptor has one.
ghost use Rattle.std.specs.Prelude.{◌≡◌, ◌==◌};
ghost use Rattle.model_pixel.specs.Channels.{count_of};

use r9_chan::Chan;

pub(crate) const RED: u32 = 0;

pub(crate) const GREEN: u32 = 1;

pub(crate) const BLUE: u32 = 2;

pub(crate) const GREY: u32 = 3;

pub(crate) const ALPHA: u32 = 4;

/// The word of `k8`.
pub(crate) const GREY_BYTE: u32 = 0x38;

pub(crate) fn lacks(chan: &Chan, kind: u32) -> bool
    ensures { result ≡ (count_of kind chan.now == 0) }
{
    let mut rest = chan.word();
    while rest != 0 {
        if rest % 256 / 16 == kind {
            return false;
        }
        rest /= 256;
    }
    true
}
