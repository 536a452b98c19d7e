// Numbers among the words of a line, taken from its front. One blank stands between two words.

ghost use Rattle.std.specs.Prelude.{◌≡◌, ◌==◌, ◌∷◌, ◌≤◌, not, length};
ghost use Rattle.std.specs.List.{prefix_len};
ghost use Rattle.std.specs.Option.{option_map};
ghost use Rattle.model_client.specs.mirror.Lines.{plain};
ghost use Rattle.r9_mirror.specs.Words.{words_of, words_left, behind, number_in, two_in, pair_in};

use r9_text::read_digits;

// How many bytes stand before the first of a kind, all where there is none.
pub fn len_before(end: u8, text: &[u8]) -> usize
    ensures len { result ≡ prefix_len (λ byte. not (byte == end)) text.now }
    ensures within { result ≤ length text.now }
{
    text.iter().take_while(|byte| **byte != end).count()
}

// The first word, and what stands behind the blank after it.
fn cut(text: &[u8]) -> (&[u8], Option<&[u8]>)
    ensures { words_of text.now ≡ result.0.now ∷ words_left result.1 }
{
    let len = len_before(b' ', text);
    if len < text.len() {
        (&text[..len], Some(&text[len + 1..]))
    } else {
        (text, None)
    }
}

// The number that a word tells in 1 to 18 digits, without a leading zero, or 0 itself.
fn plain(word: &[u8]) -> Option<u64>
    ensures { result ≡ plain word.now }
{
    if 1 < word.len() && word[0] == b'0' {
        None
    } else {
        read_digits(word, 18)
    }
}

// The words behind a line's letter.
pub fn behind(letter: u8, line: &[u8]) -> Option<&[u8]>
    ensures { words_left result ≡ behind letter (words_of line.now) }
{
    match cut(line) {
        ([first], rest) if *first == letter => rest,
        _ => None,
    }
}

// The number that the first word is, and the words behind it.
fn number(words: Option<&[u8]>) -> Option<(u64, Option<&[u8]>)>
    ensures { option_map (λ r. (r.0, words_left r.1)) result ≡ number_in (words_left words.entry) }
{
    let (word, rest) = cut(words?);
    let number = plain(word)?;
    Some((number, rest))
}

// The numbers that the first two words are, and the words behind them.
pub fn two(words: Option<&[u8]>) -> Option<((u64, u64), Option<&[u8]>)>
    ensures { option_map (λ r. (r.0, words_left r.1)) result ≡ two_in (words_left words.entry) }
{
    let (first, rest) = number(words)?;
    let (second, rest) = number(rest)?;
    Some(((first, second), rest))
}

// The numbers that the only two words are.
#[tactic(auto, using(crate::proofs::Cuts::some_words))]
pub fn pair(words: Option<&[u8]>) -> Option<(u64, u64)>
    ensures { result ≡ pair_in (words_left words.entry) }
{
    match two(words)? {
        (pair, None) => Some(pair),
        (_, Some(_)) => None,
    }
}
