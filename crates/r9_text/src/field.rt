//! Numbers and words in fields 11 wide, each with a blank behind it (draw(3), mouse(3)).

ghost use Rattle.std.specs.Prelude.{◌≡◌, ◌==◌, ◌≤◌, ◌<◌, ◌^◌, ◌++◌, ◌≤ℤ◌, pos, neg_ℤ, length, drop, Some, None, if◌then◌else◌, IfSome, OnOk, OnErr};
ghost use Rattle.std.specs.List.{prefix_len};
ghost use Rattle.model_text.specs.text.Field.{field, number_field, value, is_digits, number, integer, read_field};

use crate::Bytes;
use r9_memory::Memory;

/// Adds a word at the end, with blanks before it that make it 11 wide, and a blank behind it.
#[tactic(auto, unfolding(model_text::specs::text::Field::field))]
pub fn push_word(out: &mut Bytes, w: &[u8]) -> Result<(), Memory>
    requires { length w.now ≤ 11 }
    ensures ok { OnOk result (out.new ≡ out.old ++ field w.now) }
    ensures err { OnErr result (out.new ≡ out.old) }
{
    let mut padded = [b' '; 12];
    padded[11 - w.len()..11].copy_from_slice(w);
    out.push_all(&padded)
}

/// Adds a number in decimal at the end, 11 wide, and a blank behind it. It has to fit in 11 characters.
pub fn push_number(out: &mut Bytes, n: i64) -> Result<(), Memory>
    requires low { neg_ℤ (pos 9_999_999_999) ≤ℤ n }
    requires high { n ≤ℤ pos 99_999_999_999 }
    ensures ok { OnOk result (out.new ≡ out.old ++ number_field n) }
    ensures err { OnErr result (out.new ≡ out.old) }
{
    let mut buffer = itoa::Buffer::new();
    push_word(out, buffer.format(n).as_bytes())
}

/// The number that digits spell: None where there is none, or another character.
#[tactic(auto, using(crate::proofs::DigitLoop::more, crate::proofs::DigitLoop::below))]
fn digits(word: &[u8]) -> Option<u64>
    requires { length word.now ≤ 18 }
    ensures value { result ≡ (if is_digits word.now then Some (value word.now) else None) }
    ensures small { IfSome result (λ n. n < 2 ^ 63) }
{
    if word.is_empty() {
        return None;
    }
    let mut value = 0u64;
    for digit in word {
        if !digit.is_ascii_digit() {
            return None;
        }
        value = 10 * value + (*digit - b'0') as u64;
    }
    Some(value)
}

/// The number that 1 to so many digits spell; leading zeros are allowed. None where the word is no such.
pub fn read_digits(word: &[u8], most: usize) -> Option<u64>
    requires { most ≤ 18 }
    ensures { result ≡ number most word.now }
{
    if word.len() <= most {
        digits(word)
    } else {
        None
    }
}

fn negated(number: u64) -> i64
    requires { number < 2 ^ 63 }
    ensures { result ≡ neg_ℤ (pos number) }
{
    -(number as i64)
}

/// The number that digits spell, with a minus before them or not.
fn integer(word: &[u8]) -> Option<i64>
    requires { length word.now ≤ 11 }
    ensures { result ≡ integer word.now }
{
    match word {
        [b'-', magnitude @ ..] => {
            let number = digits(magnitude)?;
            Some(negated(number))
        }
        _ => {
            let number = digits(word)?;
            Some(number as i64)
        }
    }
}

/// How many blanks a text begins with.
fn blanks(text: &[u8]) -> usize
    ensures { result ≡ prefix_len (λ byte. byte == 32) text.now }
{
    text.iter().take_while(|byte| **byte == b' ').count()
}

/// The number in the 12 bytes at a place: blanks, an optional minus, digits, and one blank. None exactly where they are no such.
#[tactic(auto, unfolding(model_text::specs::text::Field::read_field))]
pub fn read_field(text: &[u8], at: usize) -> Option<i64>
    ensures { result ≡ read_field (drop at text.now) }
{
    if text.len() < at {
        return None;
    }
    let rest = &text[at..];
    if rest.len() < 12 || rest[11] != b' ' {
        return None;
    }
    let front = &rest[..11];
    integer(&front[blanks(front)..])
}
