// Pixels of 1, 2, 4, 8, 16, 24 or 32 bits, packed into bytes.

ghost use Rattle.std.specs.Prelude.{◌≡◌, ◌≢◌, ℕ, ◌+◌, ◌*◌, ◌<◌, ◌≤◌, ◌^◌, ◌-◌, ◌/◌, ◌%◌, IsTrue, length, slice_index};
ghost use Rattle.model_pixel.specs.Channels.{is_depth};
ghost use Rattle.model_pixel.specs.Rows.{raw_at};

// The places of a small pixel: its byte, and how far it stands above the lowest bit.
fn shift_of(depth: u32, n: usize) -> u32
    requires depth { IsTrue (is_depth depth) }
    requires small { depth < 8 }
    ensures value { result ≡ depth * (8 / depth - 1 - n % (8 / depth)) }
    ensures fits { result + depth ≤ 8 }
{
    let per_byte = 8 / depth;
    depth * (per_byte - 1 - (n % per_byte as usize) as u32)
}

fn read_small(bytes: &[u8], depth: u32, n: usize) -> u32
    requires depth { IsTrue (is_depth depth) }
    requires small { depth < 8 }
    requires within { (n + 1) * depth ≤ 8 * length bytes.now }
    ensures value { result ≡ raw_at depth bytes.now n }
    ensures range { result < 2 ^ depth }
{
    let byte = bytes[n / (8 / depth as usize)];
    (u32::from(byte) >> shift_of(depth, n)) % (1 << depth)
}

#[inline(always)]
fn byte(bytes: &[u8], at: usize) -> u32
    requires { at < length bytes.now }
    ensures value { result ≡ slice_index bytes.now at }
    ensures range { result < 256 }
{
    u32::from(bytes[at])
}

#[inline(always)]
fn read_whole(bytes: &[u8], depth: u32, n: usize) -> u32
    requires depth { IsTrue (is_depth depth) }
    requires whole { 8 ≤ depth }
    requires within { (n + 1) * depth ≤ 8 * length bytes.now }
    ensures value { result ≡ raw_at depth bytes.now n }
    ensures range { result < 2 ^ depth }
{
    match depth {
        8 => byte(bytes, n),
        16 => u32::from(u16::from_le_bytes(bytes.as_chunks::<2>().0[n])),
        24 => byte(bytes, 3 * n) + 256 * (byte(bytes, 3 * n + 1) + 256 * byte(bytes, 3 * n + 2)),
        _ => u32::from_le_bytes(bytes.as_chunks::<4>().0[n]),
    }
}

/// Each packed pixel fits the depth. Nothing is done.
pub fn sound(bytes: &[u8], depth: u32)
    requires { IsTrue (is_depth depth) }
    ensures { (n : ℕ) → raw_at depth bytes.now n < 2 ^ depth }
{}

/// Raw pixel number n of packed pixels.
#[inline(always)]
pub fn read(bytes: &[u8], depth: u32, n: usize) -> u32
    requires depth { IsTrue (is_depth depth) }
    requires within { (n + 1) * depth ≤ 8 * length bytes.now }
    ensures value { result ≡ raw_at depth bytes.now n }
    ensures range { result < 2 ^ depth }
{
    if depth < 8 {
        read_small(bytes, depth, n)
    } else {
        read_whole(bytes, depth, n)
    }
}

fn write_small(bytes: &mut [u8], depth: u32, n: usize, raw: u32)
    requires depth { IsTrue (is_depth depth) }
    requires small { depth < 8 }
    requires within { (n + 1) * depth ≤ 8 * length bytes.old }
    requires raw { raw < 2 ^ depth }
    ensures written { raw_at depth bytes.new n ≡ raw }
    ensures others { (m : ℕ) → m ≢ n → raw_at depth bytes.new m ≡ raw_at depth bytes.old m }
{
    let at = n / (8 / depth as usize);
    let shift = shift_of(depth, n);
    bytes[at] = with_bits(bytes[at], shift, depth, raw);
}

// A byte with other bits from `shift` on.
fn with_bits(byte: u8, shift: u32, depth: u32, raw: u32) -> u8
    requires fits { shift + depth ≤ 8 }
    requires raw { raw < 2 ^ depth }
    ensures { result ≡ (byte / 2 ^ (shift + depth) * 2 ^ depth + raw) * 2 ^ shift + byte % 2 ^ shift }
{
    let old = u32::from(byte);
    let low = old % (1 << shift);
    let high = old >> (shift + depth);
    ((((high << depth) + raw) << shift) + low) as u8
}

#[inline(always)]
fn write_whole(bytes: &mut [u8], depth: u32, n: usize, raw: u32)
    requires depth { IsTrue (is_depth depth) }
    requires whole { 8 ≤ depth }
    requires within { (n + 1) * depth ≤ 8 * length bytes.old }
    requires raw { raw < 2 ^ depth }
    ensures written { raw_at depth bytes.new n ≡ raw }
    ensures others { (m : ℕ) → m ≢ n → raw_at depth bytes.new m ≡ raw_at depth bytes.old m }
{
    let size = depth as usize / 8;
    let start = n * size;
    bytes[start..start + size].copy_from_slice(&raw.to_le_bytes()[..size]);
}

#[inline(always)]
fn write_bytes(bytes: &mut [u8], depth: u32, n: usize, raw: u32)
    requires depth { IsTrue (is_depth depth) }
    requires whole { 8 ≤ depth }
    requires within { (n + 1) * depth ≤ 8 * length bytes.old }
    requires raw { raw < 2 ^ depth }
    ensures written { raw_at depth bytes.new n ≡ raw }
    ensures others { (m : ℕ) → m ≢ n → raw_at depth bytes.new m ≡ raw_at depth bytes.old m }
{
    let size = depth as usize / 8;
    let start = n * size;
    for i in 0..size {
        bytes[start + i] = ((raw >> (8 * i as u32)) % 256) as u8;
    }
}

/// Writes raw pixel number n of packed pixels, and no other.
#[inline(always)]
pub fn write(bytes: &mut [u8], depth: u32, n: usize, raw: u32)
    requires depth { IsTrue (is_depth depth) }
    requires within { (n + 1) * depth ≤ 8 * length bytes.old }
    requires raw { raw < 2 ^ depth }
    ensures written { raw_at depth bytes.new n ≡ raw }
    ensures others { (m : ℕ) → m ≢ n → raw_at depth bytes.new m ≡ raw_at depth bytes.old m }
{
    if depth < 8 {
        write_small(bytes, depth, n, raw);
    } else {
        write_whole(bytes, depth, n, raw);
    }
}

/// Writes raw pixel number n of packed pixels, and no other. Where pixels that differ are written one after the other, this compiles to
/// stores of many at once, as `write` does where they are all equal.
#[inline(always)]
pub fn write_among(bytes: &mut [u8], depth: u32, n: usize, raw: u32)
    requires depth { IsTrue (is_depth depth) }
    requires within { (n + 1) * depth ≤ 8 * length bytes.old }
    requires raw { raw < 2 ^ depth }
    ensures written { raw_at depth bytes.new n ≡ raw }
    ensures others { (m : ℕ) → m ≢ n → raw_at depth bytes.new m ≡ raw_at depth bytes.old m }
{
    if depth < 8 {
        write_small(bytes, depth, n, raw);
    } else {
        write_bytes(bytes, depth, n, raw);
    }
}
