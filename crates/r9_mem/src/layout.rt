// The channels that r9_kern composes in lanes.
ghost use Rattle.std.specs.Prelude.{◌≡◌, ℕ, IfSome};
ghost use Rattle.model_pixel.specs.Channels.{Colour, expand, pack};
ghost use Rattle.r9_kern.specs.Layouts.{chan_of, mask_chan_of};

use r9_chan::Chan;
use r9_kern::{Layout, MaskLayout};

// The layout that gives and takes the same colours. `r8g8b8` is read and written as `x8r8g8b8` is.
pub(crate) fn layout_of(chan: &Chan) -> Option<Layout>
    ensures reads { IfSome result (λ layout. (raw : ℕ) → expand (chan_of layout) raw ≡ expand chan.now raw) }
    ensures writes { IfSome result (λ layout. (colour : Colour) → pack (chan_of layout) colour ≡ pack chan.now colour) }
{
    match chan.word() {
        0x08182848 => Some(Layout::Rgba),
        0x48081828 => Some(Layout::Argb),
        0x68081828 => Some(Layout::Xrgb),
        0x00081828 => Some(Layout::Xrgb),
        _ => None,
    }
}

pub(crate) fn mask_layout_of(chan: &Chan) -> Option<MaskLayout>
    ensures { IfSome result (λ layout. mask_chan_of layout ≡ chan.now) }
{
    match chan.word() {
        0x38 => Some(MaskLayout::Grey8),
        0x31 => Some(MaskLayout::Grey1),
        _ => None,
    }
}
