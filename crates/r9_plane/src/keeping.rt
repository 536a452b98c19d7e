// Pixels side by side that are copied with some of their bits.

ghost use Rattle.std.specs.Prelude.{◌≡◌, ◌≢◌, ℕ, ◌+◌, ◌-◌, ◌*◌, ◌<◌, ◌≤◌, ◌^◌, IsTrue, length};
ghost use Rattle.std.specs.Int.Bits.{bit_and};
ghost use Rattle.model_pixel.specs.Channels.{is_depth};
ghost use Rattle.model_pixel.specs.Rows.{raw_at};

use super::packed::{self, read, write};
use super::runs::copy_run;

// All bits of a pixel.
fn all_bits(depth: u32) -> u32
    requires { IsTrue (is_depth depth) }
    ensures { result ≡ 2 ^ depth - 1 }
{
    u32::MAX >> (32 - depth)
}

fn copy_bits<const DEPTH: u32>(
    bytes: &mut [u8],
    first: usize,
    count: usize,
    from: &[u8],
    from_first: usize,
    bits: u32,
)
    requires depth { IsTrue (is_depth DEPTH) }
    requires numbers { first + count < 2 ^ 63 }
    requires from_numbers { from_first + count < 2 ^ 63 }
    requires within { (first + count) * DEPTH ≤ 8 * length bytes.old }
    requires from { (from_first + count) * DEPTH ≤ 8 * length from.now }
    ensures written { (i : ℕ) → i < count → raw_at DEPTH bytes.new (first + i) ≡ bit_and (raw_at DEPTH from.now (from_first + i)) bits }
    ensures others { (n : ℕ) → ((i : ℕ) → i < count → n ≢ first + i) → raw_at DEPTH bytes.new n ≡ raw_at DEPTH bytes.old n }
{
    for i in 0..count {
        let raw = read(from, DEPTH, from_first + i);
        write(bytes, DEPTH, first + i, raw & bits);
    }
}

/// Copies these bits of `count` pixels from other packed ones of the same depth, there from number `from_first` on, here from
/// number `first` on.
pub fn copy_kept(
    bytes: &mut [u8],
    depth: u32,
    first: usize,
    count: usize,
    from: &[u8],
    from_first: usize,
    bits: u32,
)
    requires depth { IsTrue (is_depth depth) }
    requires numbers { first + count < 2 ^ 63 }
    requires from_numbers { from_first + count < 2 ^ 63 }
    requires within { (first + count) * depth ≤ 8 * length bytes.old }
    requires from { (from_first + count) * depth ≤ 8 * length from.now }
    ensures written { (i : ℕ) → i < count → raw_at depth bytes.new (first + i) ≡ bit_and (raw_at depth from.now (from_first + i)) bits }
    ensures others { (n : ℕ) → ((i : ℕ) → i < count → n ≢ first + i) → raw_at depth bytes.new n ≡ raw_at depth bytes.old n }
{
    if bits == all_bits(depth) {
        packed::sound(from, depth);
        copy_run(bytes, depth, first, count, from, from_first);
        return;
    }
    match depth {
        1 => copy_bits::<1>(bytes, first, count, from, from_first, bits),
        2 => copy_bits::<2>(bytes, first, count, from, from_first, bits),
        4 => copy_bits::<4>(bytes, first, count, from, from_first, bits),
        8 => copy_bits::<8>(bytes, first, count, from, from_first, bits),
        16 => copy_bits::<16>(bytes, first, count, from, from_first, bits),
        24 => copy_bits::<24>(bytes, first, count, from, from_first, bits),
        _ => copy_bits::<32>(bytes, first, count, from, from_first, bits),
    }
}
