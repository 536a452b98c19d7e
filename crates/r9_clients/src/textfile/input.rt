//! Reading the input.

ghost use Rattle.std.specs.Prelude.{◌≡◌, ◌≤◌, ◌*◌, length, IfSome, IfOk};
ghost use Rattle.r9_clients.specs.textfile.Input.{input_of, is_origin, parts, placed, side, sized};
ghost use Rattle.r9_clients.specs.textfile.View.{outcome_of};

use r9_text::read_field;
use thiserror::Error;

/// Bytes that are no input: the first field that does not fit begins at this place, or the rows of the font, which are short, begin at
/// 60, or the input reaches the limit of 1,048,576 bytes there.
#[derive(Clone, Copy, Debug, PartialEq, Eq, Error)]
#[error("bad input at byte {place}")]
pub struct BadInput {
    pub place: u64,
}

/// A font and a text.
#[derive(Clone, Copy, Debug)]
pub struct Input<'a> {
    /// How many pixels each character is wide, from 1 to 8, and high, from 1 to 16.
    pub width: u32,
    pub height: u32,
    /// The pixels of the font row by row, one byte for each: 95 characters side by side.
    pub pixels: &'a [u8],
    /// The text.
    pub text: &'a [u8],
}

/// An input is shorter than this.
const LIMIT: usize = 1 << 20;

/// How many characters a font has.
const CELLS: u32 = 95;

/// The field of the channels k8.
const CHANNELS: &[u8] = b"         k8 ";

/// How many bytes stand before the rows.
const HEADER_LEN: usize = 60;

#[tactic(auto, unfolding(crate::specs::textfile::Input::is_origin))]
fn is_origin(number: Option<i64>) -> bool
    ensures { result ≡ is_origin number }
{
    match number {
        Some(number) => number == 0,
        None => false,
    }
}

/// The number from 1 to so many, so many times of which a field tells.
#[tactic(auto, unfolding(crate::specs::textfile::Input::side))]
fn side(unit: u32, most: u32, number: Option<i64>) -> Option<u32>
    requires { 1 ≤ unit }
    ensures value { result ≡ side unit most number }
    ensures few { IfSome result (λ n. n ≤ most) }
{
    let number = number?.max(0) as u64;
    let side = number / u64::from(unit);
    if number % u64::from(unit) == 0 && 1 <= side && side <= u64::from(most) {
        Some(side as u32)
    } else {
        None
    }
}

/// The font's pixels, and the text behind them.
#[tactic(auto, unfolding(crate::specs::textfile::Input::parts))]
fn parts(width: u32, height: u32, bytes: &[u8]) -> Result<Input<'_>, BadInput>
    requires width { width ≤ 8 }
    requires height { height ≤ 16 }
    ensures { outcome_of result ≡ parts width height bytes.now }
{
    let end = HEADER_LEN + (height * (CELLS * width)) as usize;
    if bytes.len() < end {
        return Err(BadInput { place: 60 });
    }
    Ok(Input {
        width,
        height,
        pixels: &bytes[HEADER_LEN..end],
        text: &bytes[end..],
    })
}

/// The input by the font's lower right corner.
#[tactic(auto, unfolding(crate::specs::textfile::Input::sized))]
fn sized(bytes: &[u8]) -> Result<Input<'_>, BadInput>
    ensures { outcome_of result ≡ sized bytes.now }
{
    let Some(width) = side(CELLS, 8, read_field(bytes, 36)) else {
        return Err(BadInput { place: 36 });
    };
    let Some(height) = side(1, 16, read_field(bytes, 48)) else {
        return Err(BadInput { place: 48 });
    };
    parts(width, height, bytes)
}

/// The input by the font's upper left corner.
#[tactic(auto, unfolding(crate::specs::textfile::Input::placed))]
fn placed(bytes: &[u8]) -> Result<Input<'_>, BadInput>
    ensures { outcome_of result ≡ placed bytes.now }
{
    if !is_origin(read_field(bytes, 12)) {
        return Err(BadInput { place: 12 });
    }
    if !is_origin(read_field(bytes, 24)) {
        return Err(BadInput { place: 24 });
    }
    sized(bytes)
}

/// The input that bytes are: an image file (image(6)) of one byte for each pixel, with 95 characters side by side, and a text to the end.
#[tactic(auto, unfolding(crate::specs::textfile::Input::input_of))]
pub fn read_input(bytes: &[u8]) -> Result<Input<'_>, BadInput>
    ensures value { outcome_of result ≡ input_of bytes.now }
    ensures some_width { IfOk result (λ input. 1 ≤ input.width) }
    ensures most_width { IfOk result (λ input. input.width ≤ 8) }
    ensures some_height { IfOk result (λ input. 1 ≤ input.height) }
    ensures most_height { IfOk result (λ input. input.height ≤ 16) }
    ensures whole { IfOk result (λ input. length input.pixels.now ≡ input.height * (95 * input.width)) }
{
    if LIMIT <= bytes.len() {
        return Err(BadInput {
            place: LIMIT as u64,
        });
    }
    if !bytes.starts_with(CHANNELS) {
        return Err(BadInput { place: 0 });
    }
    placed(bytes)
}
