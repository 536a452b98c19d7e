//! The numbers of a command.

ghost use Rattle.std.specs.Prelude.{◌≡◌, ◌≤◌, ◌<◌, ◌^◌, IfSome};
ghost use Rattle.model_text.specs.text.Field.{number};
ghost use Rattle.model_files.specs.wctl.Words.{signed, amount};
ghost use Rattle.r9_wctl.specs.wctl.Small.{IsSmall, number_of};

use model_files::wctl::Amount;
use r9_text::read_digits;

/// The number that 1 to so many digits spell.
#[tactic(auto, using(crate::proofs::wctl::Digits::fits))]
pub fn digits(word: &[u8], most: usize) -> Option<u32>
    requires { most ≤ 9 }
    ensures value { result ≡ number most word.now }
    ensures small { IfSome result (λ n. n < 10 ^ most) }
{
    let number = read_digits(word, most)?;
    Some(number as u32)
}

/// A number of 1 to 7 digits, with a minus before it or not.
pub fn signed(word: &[u8]) -> Option<i64>
    ensures value { result ≡ signed word.now }
    ensures small { IfSome result IsSmall }
{
    match word {
        [b'-', magnitude @ ..] => {
            let n = digits(magnitude, 7)?;
            Some(-i64::from(n))
        }
        _ => {
            let n = digits(word, 7)?;
            Some(i64::from(n))
        }
    }
}

/// A number of 1 to 7 digits, or a change by one.
pub fn amount(word: &[u8]) -> Option<Amount>
    ensures value { result ≡ amount word.now }
    ensures small { IfSome result (λ a. IsSmall (number_of a)) }
{
    match word {
        [b'+', change @ ..] => {
            let n = digits(change, 7)?;
            Some(Amount::Plus(i64::from(n)))
        }
        [b'-', change @ ..] => {
            let n = digits(change, 7)?;
            Some(Amount::Minus(i64::from(n)))
        }
        _ => {
            let n = digits(word, 7)?;
            Some(Amount::Is(i64::from(n)))
        }
    }
}
