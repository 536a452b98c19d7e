ghost use Rattle.std.specs.Prelude.{◌≡◌, ◌≢◌, ◌+◌, ℕ, IsTrue, IfSome, IfNone, ◌/◌, ◌%◌, ◌<◌, ◌≤◌, ◌^◌, ◌-◌};
ghost use Rattle.model_pixel.specs.Channels.{channel, is_channel, letter, promoted, component};

use super::colour::Colour;

// The kinds of channels, by their numbers in a descriptor.
pub const RED: u32 = 0;

pub const GREEN: u32 = 1;

pub const BLUE: u32 = 2;

pub const GREY: u32 = 3;

pub const ALPHA: u32 = 4;

pub const IGNORED: u32 = 6;

/// The letter of a kind.
pub fn letter(kind: u32) -> u8
    ensures { result ≡ letter kind }
{
    match kind {
        RED => b'r',
        GREEN => b'g',
        BLUE => b'b',
        GREY => b'k',
        ALPHA => b'a',
        _ => b'x',
    }
}

/// The byte of a channel that a letter and a digit name.
pub fn channel_of(name: u8, digit: u8) -> Option<u32>
    ensures found { IfSome result (λ byte. IsTrue (is_channel (channel byte)) × (byte < 256) × (letter (byte / 16) ≡ name) × (48 + byte % 16 ≡ digit)) }
    ensures none { IfNone result ((byte : ℕ) → byte < 256 → IsTrue (is_channel (channel byte)) → letter (byte / 16) ≡ name → 48 + byte % 16 ≢ digit) }
{
    let kind = match name {
        b'r' => RED,
        b'g' => GREEN,
        b'b' => BLUE,
        b'k' => GREY,
        b'a' => ALPHA,
        b'x' => IGNORED,
        _ => return None,
    };
    match digit {
        b'1'..=b'8' => Some(16 * kind + u32::from(digit - b'0')),
        _ => None,
    }
}

/// The value of a channel of so many bits at 8 bits: its bits are repeated from the top until 8 are filled.
pub fn promoted(bits: u32, value: u32) -> u8
    requires some { 1 ≤ bits }
    requires most { bits ≤ 8 }
    requires fits { value < 2 ^ bits }
    ensures { result ≡ promoted bits value }
{
    let filled = match bits {
        1 => value * 0b1111_1111,
        2 => value * 0b0101_0101,
        3 => value * 0b0100_1001 / 2,
        4 => value * 0b0001_0001,
        5 => value * 0b0010_0001 / 4,
        6 => value * 0b0100_0001 / 16,
        7 => value * 0b1000_0001 / 64,
        _ => value,
    };
    filled as u8
}

/// The grey of a colour.
pub fn grey(colour: Colour) -> u8
    ensures { result ≡ component 3 colour }
{
    let sum = 156763 * u32::from(colour.r)
        + 307758 * u32::from(colour.g)
        + 59769 * u32::from(colour.b);
    (sum >> 19) as u8
}

/// What a colour writes into a channel of a kind, at 8 bits.
pub fn component(kind: u32, colour: Colour) -> u8
    ensures { result ≡ component kind colour }
{
    match kind {
        RED => colour.r,
        GREEN => colour.g,
        BLUE => colour.b,
        GREY => grey(colour),
        ALPHA => colour.a,
        _ => 0,
    }
}
