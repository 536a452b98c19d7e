// Pixels of 32 bits, composed where they stand in packed bytes.

ghost use Rattle.std.specs.Prelude.{◌≡◌, ◌≢◌, ℕ, ◌+◌, ◌*◌, ◌<◌, ◌≤◌, length};
ghost use Rattle.model_pixel.specs.Rows.{raw_at};
ghost use Rattle.r9_kern.specs.Over.{over_of};

use r9_kern::{Over, over_bytes};

// The bytes of a pixel.
const SIZE: usize = 4;

/// Composes `count` pixels of other packed ones, there from number `from_first` on, onto those from number `first` on, by SoverD
/// through a full mask.
pub fn over_run(
    over: Over,
    bytes: &mut [u8],
    first: usize,
    count: usize,
    from: &[u8],
    from_first: usize,
)
    requires within { (first + count) * 32 ≤ 8 * length bytes.old }
    requires from { (from_first + count) * 32 ≤ 8 * length from.now }
    ensures written { (i : ℕ) → i < count → raw_at 32 bytes.new (first + i) ≡ over_of over (raw_at 32 from.now (from_first + i)) (raw_at 32 bytes.old (first + i)) }
    ensures others { (n : ℕ) → ((i : ℕ) → i < count → n ≢ first + i) → raw_at 32 bytes.new n ≡ raw_at 32 bytes.old n }
{
    let start = first * SIZE;
    let from_start = from_first * SIZE;
    let len = count * SIZE;
    over_bytes(
        over,
        &mut bytes[start..start + len],
        &from[from_start..from_start + len],
    );
}
