//! The digits of a message, looked at without reading them into bytes.

ghost use Rattle.std.specs.Prelude.{◌≡◌, ◌<◌, ◌↔◌, IsTrue, is_some};
ghost use Rattle.std.specs.List.{list_all};
ghost use Rattle.model_text.specs.text.Hex.{hex, unhex, hex_digit, hex_value};
ghost use Rattle.model_text.specs.text.Number.{four_bytes};
ghost use Rattle.r9_journal.specs.Digits.{AreMessageDigits};

/// The digit of a number.
fn hex_digit(number: u8) -> u8
    requires { number < 16 }
    ensures { result ≡ hex_digit number }
{
    if number < 10 {
        b'0' + number
    } else {
        b'a' - 10 + number
    }
}

/// The digits of the four bytes in which a message tells its size.
fn size_digits(size: u32) -> [u8; 8]
    ensures { result ≡ hex (four_bytes size) }
{
    let bytes = size.to_le_bytes();
    [
        hex_digit(bytes[0] / 16),
        hex_digit(bytes[0] % 16),
        hex_digit(bytes[1] / 16),
        hex_digit(bytes[1] % 16),
        hex_digit(bytes[2] / 16),
        hex_digit(bytes[2] % 16),
        hex_digit(bytes[3] / 16),
        hex_digit(bytes[3] % 16),
    ]
}

/// Whether a character is a digit. It has no branch, so that a loop of it runs in lanes.
fn is_digit(character: u8) -> bool
    ensures { result ≡ is_some (hex_value character) }
{
    (b'0' <= character) & (character <= b'9') | (b'a' <= character) & (character <= b'f')
}

/// Whether all characters are digits.
fn are_digits(text: &[u8]) -> bool
    ensures { result ≡ list_all (λ character. is_some (hex_value character)) text.now }
{
    let mut are = true;
    for character in text {
        are &= is_digit(*character);
    }
    are
}

/// Whether a text has the digits of bytes, two for each.
fn is_hex(text: &[u8]) -> bool
    ensures { result ≡ is_some (unhex text.now) }
{
    text.len() % 2 == 0 && are_digits(text)
}

/// Whether a text has the digits of a whole message: of as many bytes as the first four say, and not too many.
pub fn are_message_digits(text: &[u8]) -> bool
    ensures { IsTrue result ↔ AreMessageDigits text.now }
{
    text.len() >= 14
        && text.len() <= 131_120
        && text.starts_with(&size_digits(text.len() as u32 / 2))
        && is_hex(text)
}
