//! The sides of a display as they are spelled, `640x480` (rio9(1), rio(4)).
#![tactic(auto)]

ghost use Rattle.std.specs.Prelude.{◌≡◌, ◌<◌, ◌==◌, length, position, IfSome};
ghost use Rattle.model_history.specs.words.Values.{counted, sides_of};

use model_history::words::Size;
use r9_text::read_digits;

/// The longest side of a display that may be asked for.
pub const LONGEST_SIDE: u32 = 2048;

/// A number from 1 to a most one, in decimal digits without leading zeros.
pub fn counted(most: u32, text: &[u8]) -> Option<u32>
    ensures { result ≡ counted most text.now }
{
    let n = read_digits(text, 10)?;
    if text.starts_with(b"0") || n > most as u64 {
        return None;
    }
    Some(n as u32)
}

/// Where the first letter x of a text stands.
fn first_x(text: &[u8]) -> Option<usize>
    ensures first { result ≡ position (λ byte. byte == 120) text.now }
    ensures within { IfSome result (λ at. at < length text.now) }
{
    text.iter().position(|byte| *byte == b'x')
}

/// The sides of a display in pixels, 1 to 2,048 each, with the letter x between them.
pub fn sides_of(text: &[u8]) -> Option<Size>
    ensures { result ≡ sides_of text.now }
{
    let Some(at) = first_x(text) else {
        return None;
    };
    let Some(width) = counted(LONGEST_SIDE, &text[..at]) else {
        return None;
    };
    let Some(height) = counted(LONGEST_SIDE, &text[at + 1..]) else {
        return None;
    };
    Some(Size { width, height })
}
