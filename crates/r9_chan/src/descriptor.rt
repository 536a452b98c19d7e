ghost use Rattle.std.specs.Prelude.{◌≡◌, ◌↔◌, ℕ, IsTrue, IsFalse, IfOk, OnErr, IsOk, ◌≢◌, take, [], ◌∷◌, ◌++◌, ◌+◌, ◌≤◌, ◌<◌, ◌^◌, ◌/◌, ◌%◌};
ghost use Rattle.model_pixel.specs.Channels.{channel, channels, count_of, depth, is_channel, is_colouring, is_depth, is_descriptor, letter, name, level, expand, pack, mask};
ghost use Rattle.std.specs.List.{list_all};

use super::channel::{
    ALPHA, BLUE, GREEN, GREY, IGNORED, RED, channel_of, component, grey, letter, promoted,
};
use super::colour::Colour;
use std::marker::Model;

/// A word or a text that is no channel descriptor.
#[derive(Clone, Copy, PartialEq, Eq, Debug)]
pub struct BadChan;

/// A channel descriptor: the channels of a pixel, with their bits.
#[derive(Clone, Copy, PartialEq, Eq, Debug)]
pub struct Chan {
    word: u32,
}

impl Model for Chan {
    ghost use Rattle.std.specs.Prelude.{ℕ, IsTrue};
    ghost use Rattle.model_pixel.specs.Channels.{is_descriptor};

    ghost Value = { ℕ };

    ghost view = { λ c. c.word };

    ghost invariant = { λ c. IsTrue (is_descriptor c.word) };

    ghost inverse = { λ n. record { word = n } };
}

// A channel is a byte of the word, 16 times its kind and its bits. The last-named channel has the lowest byte.

fn count_of(kind: u32, word: u32) -> u32
    ensures { result ≡ count_of kind word }
{
    let mut count = 0;
    let mut rest = word;
    while rest != 0 {
        if rest % 256 / 16 == kind {
            count += 1;
        }
        rest /= 256;
    }
    count
}

fn depth_of(word: u32) -> u32
    ensures { result ≡ depth word }
{
    let mut bits = 0;
    let mut rest = word;
    while rest != 0 {
        bits += rest % 256 % 16;
        rest /= 256;
    }
    bits
}

fn is_channel(byte: u32) -> bool
    ensures { result ≡ is_channel (channel byte) }
{
    let kind = byte / 16;
    let bits = byte % 16;
    (kind <= ALPHA || kind == IGNORED) && (1 <= bits && bits <= 8)
}

fn are_channels(word: u32) -> bool
    ensures { result ≡ list_all is_channel (channels word) }
{
    let mut rest = word;
    while rest != 0 {
        if !is_channel(rest % 256) {
            return false;
        }
        rest /= 256;
    }
    true
}

fn is_colouring(word: u32) -> bool
    ensures { result ≡ is_colouring word }
{
    let grey = count_of(GREY, word);
    let red = count_of(RED, word);
    let green = count_of(GREEN, word);
    let blue = count_of(BLUE, word);
    match (grey, red, green, blue) {
        (1, 0, 0, 0) | (0, 1, 1, 1) => true,
        (0, 0, 0, 0) => count_of(ALPHA, word) == 1,
        _ => false,
    }
}

fn is_descriptor(word: u32) -> bool
    ensures { result ≡ is_descriptor word }
{
    are_channels(word)
        && matches!(depth_of(word), 1 | 2 | 4 | 8 | 16 | 24 | 32)
        && is_colouring(word)
        && count_of(ALPHA, word) <= 1
        && count_of(IGNORED, word) <= 1
}

// The value of a raw pixel's channel of a kind at 8 bits, or a default where there is none.
fn level(word: u32, kind: u32, default: u8, raw: u32) -> u8
    requires { IsTrue (list_all is_channel (channels word)) }
    ensures { result ≡ level kind default (channels word) raw }
{
    let mut rest = word;
    let mut bits_left = raw;
    while rest != 0 {
        let bits = rest % 256 % 16;
        if rest % 256 / 16 == kind {
            return promoted(bits, bits_left % (1 << bits));
        }
        bits_left >>= bits;
        rest /= 256;
    }
    default
}

/// The text of a descriptor: the first `len` bytes.
#[derive(Clone, Copy, PartialEq, Eq, Debug)]
pub struct ChanText {
    pub len: u8,
    pub bytes: [u8; 8],
}

impl ChanText {
    const EMPTY: ChanText = ChanText {
        len: 0,
        bytes: [0; 8],
    };

    // The text with the letter and the digit of one more channel.
    fn with_channel(self, byte: u32) -> ChanText
        requires room { self.len ≤ 6 }
        requires byte { byte < 256 }
        ensures len { result.len ≡ self.len + 2 }
        ensures bytes { take result.len result.bytes ≡ take self.len self.bytes ++ letter (byte / 16) ∷ (48 + byte % 16) ∷ [] }
    {
        let mut text = self;
        text.bytes[usize::from(self.len)] = letter(byte / 16);
        text.bytes[usize::from(self.len) + 1] = b'0' + (byte % 16) as u8;
        text.len = self.len + 2;
        text
    }
}

fn text_of(word: u32) -> ChanText
    ensures len { result.len ≤ 8 }
    ensures bytes { take result.len result.bytes ≡ name word }
{
    let mut text = ChanText::EMPTY;
    let mut place: u32 = 4;
    while place > 0 {
        place -= 1;
        let front = word >> (8 * place);
        if front != 0 {
            text = text.with_channel(front % 256);
        }
    }
    text
}

impl Chan {
    /// The descriptor that a word is.
    pub fn from_word(word: u32) -> Result<Chan, BadChan>
        ensures accepted { IsOk result ↔ IsTrue (is_descriptor word) }
        ensures value { IfOk result (λ chan. chan ≡ word) }
    {
        if is_descriptor(word) {
            Ok(Chan { word })
        } else {
            Err(BadChan)
        }
    }

    /// The descriptor of a text, such as `x8r8g8b8`.
    pub fn from_text(text: &str) -> Result<Chan, BadChan>
        ensures accepted { IfOk result (λ chan. name chan ≡ text.now) }
        ensures refused { OnErr result ((word : ℕ) → IsTrue (is_descriptor word) → name word ≢ text.now) }
    {
        let bytes = text.as_bytes();
        if bytes.len() > 8 || bytes.len() % 2 != 0 {
            return Err(BadChan);
        }
        let mut word = 0;
        let mut at = 0;
        while at < bytes.len() {
            let Some(channel) = channel_of(bytes[at], bytes[at + 1]) else {
                return Err(BadChan);
            };
            word = 256 * word + channel;
            at += 2;
        }
        if !is_descriptor(word) {
            return Err(BadChan);
        }
        Ok(Chan { word })
    }

    /// The text of the descriptor: a letter and a digit for each channel.
    pub fn text(&self) -> ChanText
        ensures len { result.len ≤ 8 }
        ensures bytes { take result.len result.bytes ≡ name self.now }
    {
        text_of(self.word)
    }

    /// The descriptor as a word.
    pub fn word(&self) -> u32
        ensures value { result ≡ self.now }
        ensures descriptor { IsTrue (is_descriptor result) }
    {
        self.word
    }

    /// The bits of a pixel.
    pub fn depth(&self) -> u32
        ensures value { result ≡ depth self.now }
        ensures range { IsTrue (is_depth result) }
    {
        depth_of(self.word)
    }

    /// The colour of a raw pixel. A channel of fewer than 8 bits is promoted by repeating its bits from the top, a grey
    /// stands for red, green and blue, and a missing alpha is 255.
    pub fn expand(&self, raw: u32) -> Colour
        ensures { result ≡ expand self.now raw }
    {
        let grey = level(self.word, GREY, 0, raw);
        Colour {
            r: level(self.word, RED, grey, raw),
            g: level(self.word, GREEN, grey, raw),
            b: level(self.word, BLUE, grey, raw),
            a: level(self.word, ALPHA, 255, raw),
        }
    }

    /// The mask value of a raw pixel: its alpha, or its grey where the descriptor has no alpha.
    pub fn mask(&self, raw: u32) -> u8
        ensures { result ≡ mask self.now raw }
    {
        let colour = self.expand(raw);
        if count_of(ALPHA, self.word) == 0 {
            grey(colour)
        } else {
            colour.a
        }
    }

    /// The raw pixel of a colour: each channel keeps the top bits of its component, and an ignored channel is 0.
    pub fn pack(&self, colour: Colour) -> u32
        ensures value { result ≡ pack self.now colour }
        ensures range { result < 2 ^ depth self.now }
    {
        let mut raw = 0;
        let mut shift = 0;
        let mut rest = self.word;
        while rest != 0 {
            let bits = rest % 256 % 16;
            let part = component(rest % 256 / 16, colour) >> (8 - bits);
            raw += u32::from(part) << shift;
            shift += bits;
            rest /= 256;
        }
        raw
    }
}
