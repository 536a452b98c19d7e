//! Pixels of some channels as those of others.

ghost use Rattle.std.specs.Prelude.{◌≡◌, ◌^◌, ◌<◌, ℕ, length, slice_index};
ghost use Rattle.model_pixel.specs.Channels as channels;
ghost use Rattle.model_pixel.specs.Channels.{expand, pack};

use r9_chan::Chan;

// A pixel of some channels as one of others.
fn converted(from: &Chan, to: &Chan, raw: u32) -> u32
    ensures value { result ≡ pack to.now (expand from.now raw) }
    ensures range { result < 2 ^ channels.depth to.now }
{
    to.pack(from.expand(raw))
}

/// Pixels of some channels become those of others. Most fills are of one colour, so a pixel that is equal to the one before
/// it is not converted again.
pub fn convert(from: &Chan, to: &Chan, raws: &mut [u32])
    ensures value { (k : ℕ) → k < length raws.old → slice_index raws.new k ≡ pack to.now (expand from.now (slice_index raws.old k)) }
    ensures range { (k : ℕ) → k < length raws.old → slice_index raws.new k < 2 ^ channels.depth to.now }
{
    let mut last = 0;
    let mut value = converted(from, to, last);
    for k in 0..raws.len() {
        if raws[k] != last {
            last = raws[k];
            value = converted(from, to, last);
        }
        raws[k] = value;
    }
}
