// Fields: where a channel stands in a raw pixel, and how its bits are promoted to 8.
ghost use Rattle.std.specs.Prelude.{◌≡◌, ◌+◌, ◌*◌, ◌≤◌, ◌<◌, ◌/◌, ◌%◌, ◌^◌, ℕ, IsTrue};
ghost use Rattle.std.specs.List.{list_all};
ghost use Rattle.model_pixel.specs.Channels.{channels, depth, is_channel, level, promoted};
ghost use Rattle.r9_mem.specs.Fields.{value, IsField};

/// Where bits stand in a raw pixel, and how they become a value of 8 bits. With no factor it is the base alone.
#[derive(Clone, Copy)]
pub struct Field {
    /// How many bits of the pixel are below.
    pub low: u32,
    /// The mask of the bits, once they are the lowest.
    pub ones: u32,
    /// The factor that repeats them.
    pub times: u32,
    /// How many bits of the product are left off.
    pub cut: u32,
    /// What is added.
    pub base: u32,
}

// The field that is one value in each pixel.
pub(crate) fn constant(base: u8) -> Field
    ensures field { IsField result }
    ensures value { (raw : ℕ) → value result raw ≡ base }
{
    Field {
        low: 0,
        ones: 0,
        times: 0,
        cut: 0,
        base: u32::from(base),
    }
}

// The field of so many bits above so many others, of which a product without its lowest bits is kept.
fn product(low: u32, bits: u32, times: u32, cut: u32) -> Field
    requires low { low < 32 }
    requires bits { bits ≤ 8 }
    requires times { times < 256 }
    requires cut { cut < 32 }
    requires below { (v : ℕ) → v < 2 ^ bits → v * times / 2 ^ cut < 256 }
    ensures field { IsField result }
    ensures value { (raw : ℕ) → value result raw ≡ raw / 2 ^ low % 2 ^ bits * times / 2 ^ cut }
{
    Field {
        low,
        ones: (1 << bits) - 1,
        times,
        cut,
        base: 0,
    }
}

// The field of so many bits above so many others, promoted to 8 bits.
fn field_at(low: u32, bits: u32) -> Field
    requires some { 1 ≤ bits }
    requires most { bits ≤ 8 }
    requires low { low < 32 }
    ensures field { IsField result }
    ensures value { (raw : ℕ) → value result raw ≡ promoted bits (raw / 2 ^ low % 2 ^ bits) }
{
    match bits {
        1 => product(low, 1, 0b1111_1111, 0),
        2 => product(low, 2, 0b0101_0101, 0),
        3 => product(low, 3, 0b0100_1001, 1),
        4 => product(low, 4, 0b0001_0001, 0),
        5 => product(low, 5, 0b0010_0001, 2),
        6 => product(low, 6, 0b0100_0001, 4),
        7 => product(low, 7, 0b1000_0001, 6),
        _ => product(low, 8, 1, 0),
    }
}

// The field of the channel of a kind, or a default where there is none.
pub(crate) fn field_of(word: u32, kind: u32, default: Field) -> Field
    requires sound { IsTrue (list_all is_channel (channels word)) }
    requires depth { depth word ≤ 32 }
    requires default { IsField default }
    ensures field { IsField result }
    ensures value { (raw : ℕ) → value result raw ≡ level kind (value default raw) (channels word) raw }
{
    let mut rest = word;
    let mut low = 0;
    while rest != 0 {
        let bits = rest % 256 % 16;
        if rest % 256 / 16 == kind {
            return field_at(low, bits);
        }
        low += bits;
        rest /= 256;
    }
    default
}

#[inline(always)]
#[tactic(auto, unfolding(crate::specs::Fields::value))]
pub(crate) fn value(field: &Field, raw: u32) -> u32
    requires { IsField field.now }
    ensures { result ≡ value field.now raw }
{
    ((((raw >> field.low) & field.ones) * field.times) >> field.cut) + field.base
}
