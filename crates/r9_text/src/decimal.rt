//! Decimal numbers without leading zeros.

ghost use Rattle.std.specs.Prelude.{◌≡◌, ◌<◌, ◌^◌, ◌++◌, ℕ, Some, IfSome, MatchOption, OnOk, OnErr};
ghost use Rattle.std.specs.Fmt.{decimal};
ghost use Rattle.std.specs.Str.{IsUtf8};

use crate::Bytes;
use r9_memory::Memory;

/// Adds the decimal digits of a number at the end.
pub fn push_decimal(out: &mut Bytes, n: u64) -> Result<(), Memory>
    ensures ok { OnOk result (out.new ≡ out.old ++ decimal n) }
    ensures err { OnErr result (out.new ≡ out.old) }
{
    let mut buffer = itoa::Buffer::new();
    out.push_all(buffer.format(n).as_bytes())
}

/// Bytes as a text, where they are UTF-8.
fn text_of(bytes: &[u8]) -> Option<&str>
    ensures { MatchOption result (¬ IsUtf8 bytes.now) (λ text. text.now ≡ bytes.now) }
{
    match str::from_utf8(bytes) {
        Ok(text) => Some(text),
        Err(_) => None,
    }
}

/// The number that a text is, with a plus or leading zeros or without.
fn parsed(text: &str) -> Option<u64>
    ensures { (n : ℕ) → n < 2 ^ 64 → text.now ≡ decimal n → result ≡ Some n }
{
    match text.parse::<u64>() {
        Ok(n) => Some(n),
        Err(_) => None,
    }
}

/// The number whose decimal digits, without leading zeros, a text is. None exactly where it is that of no number below 2^64.
pub fn read_decimal(text: &[u8]) -> Option<u64>
    ensures found { IfSome result (λ n. text.now ≡ decimal n) }
    ensures only { (n : ℕ) → n < 2 ^ 64 → text.now ≡ decimal n → result ≡ Some n }
{
    let text = text_of(text)?;
    let number = parsed(text)?;
    let mut buffer = itoa::Buffer::new();
    if buffer.format(number) == text {
        Some(number)
    } else {
        None
    }
}
