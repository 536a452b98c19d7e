// Places: where the components of a packed colour go in a raw pixel, and how many of their top bits.
ghost use Rattle.std.specs.Prelude.{◌≡◌, ◌+◌, ◌*◌, ◌≤◌, ◌<◌, ◌/◌, ◌%◌, ◌^◌, ◌-◌, ℕ, IfSome, IfNone, IsTrue};
ghost use Rattle.std.specs.List.{list_all};
ghost use Rattle.model_pixel.specs.Channels.{channels, colour_of, depth, is_channel};
ghost use Rattle.r9_mem.specs.Fields.{part, put, IsPlaces};
ghost use Rattle.r9_mem.specs.Packing.{packed_by, shown};

use super::kind::{ALPHA, BLUE, GREEN, GREY, RED};

/// Bits of a packed colour that stand in a raw pixel.
#[derive(Clone, Copy)]
pub struct Place {
    /// How many bits of the packed colour are below.
    pub from: u32,
    /// The mask of the bits, once they are the lowest.
    pub ones: u32,
    /// How many bits of the pixel are below.
    pub to: u32,
}

/// The places of a pixel's channels.
#[derive(Clone, Copy)]
pub struct Places {
    pub first: Place,
    pub second: Place,
    pub third: Place,
    pub fourth: Place,
}

impl Place {
    const NONE: Place = Place {
        from: 0,
        ones: 0,
        to: 0,
    };
}

// The lowest bit of a kind's component in a packed colour, where grey stands in the place of red.
fn start_of(kind: u32) -> Option<u32>
    ensures some { IfSome result (λ start. (start ≤ 24) × ((word : ℕ) → word / 2 ^ start % 256 ≡ shown (colour_of word) kind)) }
    ensures none { IfNone result ((word : ℕ) → shown (colour_of word) kind ≡ 0) }
{
    match kind {
        RED | GREY => Some(24),
        GREEN => Some(16),
        BLUE => Some(8),
        ALPHA => Some(0),
        _ => None,
    }
}

// The place of the channel of a byte of a descriptor, which may be 0, above so many bits.
fn place_of(byte: u32, to: u32) -> Place
    requires bits { byte % 16 ≤ 8 }
    requires room { to + byte % 16 ≤ 32 }
    ensures small { (result.from < 32) × (result.to < 32) }
    ensures value { (word : ℕ) → part result word ≡ shown (colour_of word) (byte / 16) / 2 ^ (8 - byte % 16) * 2 ^ to }
{
    let bits = byte % 16;
    match start_of(byte / 16) {
        Some(start) if bits != 0 => Place {
            from: start + 8 - bits,
            ones: (1 << bits) - 1,
            to,
        },
        _ => Place::NONE,
    }
}

pub(crate) fn places_of(word: u32) -> Places
    requires sound { IsTrue (list_all is_channel (channels word)) }
    requires depth { depth word ≤ 32 }
    ensures places { IsPlaces result }
    ensures value { (word' : ℕ) → put result word' ≡ packed_by (shown (colour_of word')) (channels word) }
{
    let (first, second) = (word % 256, (word >> 8) % 256);
    let (third, fourth) = ((word >> 16) % 256, word >> 24);
    let over_first = first % 16;
    let over_second = over_first + second % 16;
    let over_third = over_second + third % 16;
    Places {
        first: place_of(first, 0),
        second: place_of(second, over_first),
        third: place_of(third, over_second),
        fourth: place_of(fourth, over_third),
    }
}

#[inline(always)]
fn part(place: &Place, word: u32) -> u32
    requires small { (place.now.from < 32) × (place.now.to < 32) }
    requires fits { part place.now word < 2 ^ 32 }
    ensures { result ≡ part place.now word }
{
    ((word >> place.from) & place.ones) << place.to
}

#[inline(always)]
pub(crate) fn put(places: &Places, word: u32) -> u32
    requires { IsPlaces places.now }
    ensures { result ≡ put places.now word }
{
    let low = part(&places.first, word) + part(&places.second, word);
    low + part(&places.third, word) + part(&places.fourth, word)
}
